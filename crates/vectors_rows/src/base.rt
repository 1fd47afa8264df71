//! Names, paths, permissions, contents and lists of rows, by values from outside.

use nf_base::{
    Act, BlobId, Change, Changes, Content, Digest, GroupId, MAX_TAKEN, MemberRow, Moment, Name,
    NameFault, NodeId, NodeKind, NodeRow, Path, Perms, Piece, Place, Row, RowKey, RowList, UserId,
    free_name,
};
use std::alloc::Global;
use std::test::Fail;

// Those that are no UTF-8 are the kinds of Unicode, table 3-7: a byte that can't begin a character, one
// that ends early, one in more bytes than it needs, a surrogate, and what is above U+10FFFF.
#[test]
fn reads_names(rt: HostRuntime) -> Result<(), Fail> {
    let cases = [
        ("é €😀".as_bytes(), None),
        (b" .a..", None),
        (b"...", None),
        (b"", Some(NameFault::Empty)),
        (b"a/b", Some(NameFault::Slash)),
        (b"a\\b", Some(NameFault::Slash)),
        (b"\0", Some(NameFault::Zero)),
        (b"..", Some(NameFault::Dots)),
        (b"/\xff", Some(NameFault::NotUtf8)),
        (b"a\xbf", Some(NameFault::NotUtf8)),
        (b"\xe2\x82a", Some(NameFault::NotUtf8)),
        (b"\xc0\xaf", Some(NameFault::NotUtf8)),
        (b"\xf0\x8f\xbf\xbf", Some(NameFault::NotUtf8)),
        (b"\xed\xa0\x80", Some(NameFault::NotUtf8)),
        (b"\xf4\x90\x80\x80", Some(NameFault::NotUtf8)),
    ];
    for (bytes, fault) in cases {
        let read = Name::read(rt.alloc(), bytes);
        assert!(rt; read.err() == fault, "at {bytes:?}");
    }
    Ok(())
}

#[test]
fn orders_by_bytes(rt: HostRuntime) -> Result<(), Fail> {
    let rising = ["a", "a (2)", "a.txt", "aa", "é", "😀"];
    let mut last = Name::read(rt.alloc(), b".HTaccess")?;
    assert!(rt; last.forbidden());
    for text in rising {
        let name = Name::read(rt.alloc(), text.as_bytes())?;
        assert!(rt; last < name, "at {text}");
        assert!(rt; name == name.copy()?, "at {text}");
        last = name;
    }
    assert!(rt; !last.forbidden());
    Ok(())
}

#[test]
fn reads_the_first_fault(rt: HostRuntime) -> Result<(), Fail> {
    let cases = [
        (["a", "b.c"], None),
        (["..", ""], Some(NameFault::Dots)),
        (["a\\", "."], Some(NameFault::Slash)),
    ];
    for (texts, fault) in cases {
        let mut segments = Vec::new(rt.alloc());
        for text in texts {
            segments.push(text.as_bytes().to_vec(rt.alloc())?)?;
        }
        let read = Path::read(rt.alloc(), &segments);
        assert!(rt; read.err() == fault, "at {texts:?}");
    }
    Ok(())
}

/// Names, and what each becomes where all but the first and `a (2)` are taken.
const FREE_NAMES: [(&str, &str); 7] = [
    ("b", "b"),
    ("a", "a (3)"),
    ("a.tar.gz", "a.tar (2).gz"),
    // A dot as the first byte begins no extension.
    (".profile", ".profile (2)"),
    ("...", ".. (2)."),
    // 10 bytes and 11
    ("x.123456789", "x (2).123456789"),
    ("x.1234567890", "x.1234567890 (2)"),
];

fn taken_names(alloc: Global) -> Result<Vec<Name>, Fail> {
    let mut taken = vec![in alloc; Name::read(alloc, b"a (2)")?]?;
    for (text, _) in &FREE_NAMES[1..] {
        taken.push(Name::read(alloc, text.as_bytes())?)?;
    }
    Ok(taken)
}

#[test]
fn takes_the_least_number(rt: HostRuntime) -> Result<(), Fail> {
    let taken = taken_names(rt.alloc())?;
    assert!(rt; taken.len() <= MAX_TAKEN);
    for (text, wanted) in FREE_NAMES {
        let name = Name::read(rt.alloc(), text.as_bytes())?;
        let free = free_name(rt.alloc(), &name, &taken)?;
        assert!(rt; free.as_bytes() == wanted.as_bytes(), "at {text}");
    }
    Ok(())
}

// A stem of more than 220 bytes, in characters of three.
#[test]
fn cuts_between_characters(rt: HostRuntime) -> Result<(), Fail> {
    let mut bytes = Vec::new(rt.alloc());
    let mut wanted = Vec::new(rt.alloc());
    for number in 0..79u32 {
        bytes.extend_from_slice("€".as_bytes())?;
        if number < 73 {
            wanted.extend_from_slice("€".as_bytes())?;
        }
    }
    wanted.extend_from_slice(b" (2)")?;
    let name = Name::read(rt.alloc(), &bytes)?;
    let taken = vec![in rt.alloc(); name.copy()?]?;
    let free = free_name(rt.alloc(), &name, &taken)?;
    assert!(rt; free.as_bytes() == wanted.as_slice());
    Ok(())
}

#[test]
fn allows_what_both_allow(rt: HostRuntime) -> Result<(), Fail> {
    let one = Perms::read(21).ok_or("below 32")?;
    let other = Perms::read(19).ok_or("below 32")?;
    let both = one.and(other);
    assert!(rt; both.bits() == 17);
    assert!(rt; both.has(Act::Share));
    assert!(rt; !both.has(Act::Create));
    assert!(rt; Perms::read(32) == None);
    Ok(())
}

#[test]
fn sums_the_sizes(rt: HostRuntime) -> Result<(), Fail> {
    let digest = Digest::new([7; 32]);
    let pieces = vec![in rt.alloc();
        Piece {
            blob: BlobId::new(1),
            size: 16_777_216,
            digest
        },
        Piece {
            blob: BlobId::new(2),
            size: 1,
            digest: Digest::new([8; 32])
        },
    ]?;
    let content = Content::new(pieces);
    assert!(rt; content.size() == 16_777_217);
    assert!(rt; content == content.clone()?);
    assert!(rt; content != Content::empty(rt.alloc()));
    assert!(rt; digest < content.pieces()[1].digest);
    assert!(rt; digest.as_bytes().len() == 32);
    Ok(())
}

fn root(alloc: Global) -> Result<Row, Fail> {
    let name = Name::read(alloc, b"ann")?;
    Ok(Row::Node(NodeRow {
        id: NodeId::new(1),
        owner: UserId::new(1),
        place: Place::Root,
        name,
        kind: NodeKind::Folder,
        content: Content::empty(alloc),
        changed: Moment::new(5),
    }))
}

fn root_and_member(alloc: Global) -> Result<RowList, Fail> {
    let mut rows = RowList::new(alloc);
    rows.push(root(alloc)?)?;
    rows.push(Row::Member(MemberRow {
        group: GroupId::new(1),
        user: UserId::new(2),
    }))?;
    Ok(rows)
}

/// Each row is dropped, and put again.
fn renewed(alloc: Global, rows: RowList) -> Result<Changes, Fail> {
    let mut changes = Changes::new(alloc);
    for row in rows.into_rows() {
        changes.push(Change::Drop(row.key()?))?;
        changes.push(Change::Put(row))?;
    }
    Ok(changes)
}

#[test]
fn copies_rows(rt: HostRuntime) -> Result<(), Fail> {
    let rows = root_and_member(rt.alloc())?;
    for row in rows.rows() {
        assert!(rt; row.copy()? == *row);
    }
    assert!(rt; Changes::new(rt.alloc()).is_empty());
    let changes = renewed(rt.alloc(), rows)?;
    match changes.as_slice().first() {
        Some(Change::Drop(RowKey::Node(id))) => assert!(rt; id.number() == 1),
        _ => return Err("the first change".into()),
    }
    assert!(rt; changes.into_vec().len() == 4);
    Ok(())
}
