//! Lines of the access log.

use jiff::Timestamp;
use log_lines::line;
use std::test::Fail;
use std::time::Duration;

#[test]
fn a_line_shows_no_token_and_is_one(rt: HostRuntime) -> Result<(), Fail> {
    let moment = Timestamp::from_second(1_795_827_723)?;
    let took = Some(Duration::from_micros(12_890));
    let cases: [(&[u8], &str); 8] = [
        (
            b"/remote.php/dav/files/alice/hello.txt",
            "2026-11-28T01:02:03Z GET /remote.php/dav/files/alice/hello.txt 200 172 12.8\n",
        ),
        (
            b"http://club.example/public.php/dav/files/s3cret/a.txt?key=s3cret",
            "2026-11-28T01:02:03Z GET http://club.example/public.php/dav/files/*/a.txt 200 172 12.8\n",
        ),
        (
            b"/public.php/dav/files/s3cret",
            "2026-11-28T01:02:03Z GET /public.php/dav/files/* 200 172 12.8\n",
        ),
        (
            b"/public.php/dav//files/s3cret",
            "2026-11-28T01:02:03Z GET * 200 172 12.8\n",
        ),
        (
            b"/public.php/dav/files//s3cret/a.txt",
            "2026-11-28T01:02:03Z GET * 200 172 12.8\n",
        ),
        (b"/s/s3cret", "2026-11-28T01:02:03Z GET * 200 172 12.8\n"),
        (
            b"/Publ%69c.php/dav/files/s3cret",
            "2026-11-28T01:02:03Z GET * 200 172 12.8\n",
        ),
        (
            b"/a\r\n2026 \"b\\\xc3",
            "2026-11-28T01:02:03Z GET /a%0D%0A2026%20%22b%5C%C3 200 172 12.8\n",
        ),
    ];
    for (target, want) in cases {
        let line = line(rt.alloc(), moment, b"GET", target, b"200", 172, took)?;
        assert!(rt; line.as_str() == want);
    }
    let unread = line(rt.alloc(), moment, b"", b"", b"400", 90, None)?;
    assert!(rt; unread.as_str() == "2026-11-28T01:02:03Z - - 400 90 -\n");
    Ok(())
}
