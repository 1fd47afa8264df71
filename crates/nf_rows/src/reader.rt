//! A reader of fields, one after the other.

ghost use Rattle.std.specs.Prelude.{◌≡◌, ◌≤◌, ◌+◌, ◌-◌, IfOk, length};
ghost use Rattle.nf_base.specs.Kept.{IsPlain};
ghost use Rattle.nf_rows.specs.Fields as field;
ghost use Rattle.nf_rows.specs.Spelling as value;
ghost use Rattle.nf_rows.specs.Reads.{Reads, ReadsAll, BeginsBody};

use crate::fault::RowFault;
use crate::parts::{
    bytes_of, content_of, digest_of, flag_of, format_of, name_of, node_kind_of, optional_of,
    path_of, permissions_of, place_of, share_kind_of, u16_of, u32_of, u64_of,
};
use nf_base::{
    Content, Digest, MAX_PIECES, Moment, Name, NodeKind, Path, Perms, Place, ShareId, ShareKind,
};
use std::alloc::Global;

/// What is left of a key or a body.
#[derive(Drop)]
pub struct Reader<'a> {
    alloc: Global,
    rest: &'a [u8],
    /// The place after the last byte, counted in key and body joined.
    end: usize,
}

#[tactic(auto, unfolding(crate::specs::Faults::value_at, crate::specs::Faults::what_at))]
impl<'a> Reader<'a> {
    pub fn key(alloc: Global, key: &'a [u8]) -> Self
        ensures rest { result.rest.now ≡ key.now }
        ensures end { result.end ≡ length key.now }
    {
        Reader {
            alloc,
            rest: key,
            end: key.len(),
        }
    }

    /// Behind the body's format.
    pub fn body(alloc: Global, key: &[u8], body: &'a [u8]) -> Result<Self, RowFault>
        ensures { BeginsBody key.now body.now result }
    {
        let (_, rest) = format_of(key.len(), body)?;
        Ok(Reader {
            alloc,
            rest,
            end: key.len() + body.len(),
        })
    }

    /// The place of the next field. No more is left than was there, so nothing saturates.
    fn at(&self) -> usize
        ensures { result ≡ self.now.end - length self.now.rest.now }
    {
        self.end.saturating_sub(self.rest.len())
    }

    /// Tests that no byte is left.
    pub fn end(&self) -> Result<(), RowFault>
        ensures { ReadsAll self.now result }
    {
        if self.rest.is_empty() {
            Ok(())
        } else {
            Err(RowFault::Long { at: self.at() })
        }
    }

    pub fn u16(&mut self) -> Result<u16, RowFault>
        ensures { Reads field.U16 value.U16 self.old self.new result }
    {
        let (number, rest) = u16_of(self.at(), self.rest)?;
        self.rest = rest;
        Ok(number)
    }

    pub fn u32(&mut self) -> Result<u32, RowFault>
        ensures { Reads field.U32 value.U32 self.old self.new result }
    {
        let (number, rest) = u32_of(self.at(), self.rest)?;
        self.rest = rest;
        Ok(number)
    }

    pub fn u64(&mut self) -> Result<u64, RowFault>
        ensures { Reads field.U64 value.U64 self.old self.new result }
    {
        let (number, rest) = u64_of(self.at(), self.rest)?;
        self.rest = rest;
        Ok(number)
    }

    pub fn digest(&mut self) -> Result<Digest, RowFault>
        ensures { Reads field.Digest value.Digest self.old self.new result }
    {
        let (bytes, rest) = bytes_of(self.at(), 32, self.rest)?;
        self.rest = rest;
        Ok(digest_of(bytes))
    }

    pub fn name(&mut self) -> Result<Name, RowFault>
        ensures { Reads field.Name value.Name self.old self.new result }
    {
        let (name, rest) = name_of(self.alloc, self.at(), self.rest)?;
        self.rest = rest;
        Ok(name)
    }

    pub fn path(&mut self) -> Result<Path, RowFault>
        ensures { Reads field.Path value.Path self.old self.new result }
    {
        let (path, rest) = path_of(self.alloc, self.at(), self.rest)?;
        self.rest = rest;
        Ok(path)
    }

    pub fn place(&mut self) -> Result<Place, RowFault>
        ensures { Reads field.Where value.Where self.old self.new result }
    {
        match place_of(self.at(), self.rest) {
            Ok((place, rest)) => {
                self.rest = rest;
                Ok(place)
            }
            Err(fault) => Err(fault),
        }
    }

    /// A node's kind, and its content, which has no piece in a folder.
    pub fn kind_and_content(&mut self) -> Result<(NodeKind, Content), RowFault>
        ensures reads { Reads field.What (λ what. value.What what.0 what.1) self.old self.new result }
        ensures plain { IfOk result (λ what. IsPlain what.0 what.1) }
    {
        let (kind, rest) = node_kind_of(self.at(), self.rest)?;
        self.rest = rest;
        let most = match kind {
            NodeKind::Folder => 0,
            NodeKind::File => MAX_PIECES,
        };
        let (content, rest) = content_of(self.alloc, most, self.at(), self.rest)?;
        self.rest = rest;
        Ok((kind, content))
    }

    pub fn share_kind(&mut self) -> Result<ShareKind, RowFault>
        ensures { Reads field.Whom value.Whom self.old self.new result }
    {
        let (kind, rest) = share_kind_of(self.alloc, self.at(), self.rest)?;
        self.rest = rest;
        Ok(kind)
    }

    fn optional(&mut self) -> Result<Option<u64>, RowFault>
        ensures { Reads field.Optional value.Optional self.old self.new result }
    {
        let (number, rest) = optional_of(self.at(), self.rest)?;
        self.rest = rest;
        Ok(number)
    }

    pub fn optional_share(&mut self) -> Result<Option<ShareId>, RowFault>
        ensures { Reads field.Optional value.Optional self.old self.new result }
    {
        Ok(self.optional()?.map(|number| ShareId::new(number)))
    }

    pub fn optional_moment(&mut self) -> Result<Option<Moment>, RowFault>
        ensures { Reads field.Optional value.Optional self.old self.new result }
    {
        Ok(self.optional()?.map(|seconds| Moment::new(seconds)))
    }

    pub fn permissions(&mut self) -> Result<Perms, RowFault>
        ensures { Reads field.Permissions value.Permissions self.old self.new result }
    {
        match permissions_of(self.at(), self.rest) {
            Ok((perms, rest)) => {
                self.rest = rest;
                Ok(perms)
            }
            Err(fault) => Err(fault),
        }
    }

    pub fn flag(&mut self) -> Result<bool, RowFault>
        ensures { Reads field.Flag value.Flag self.old self.new result }
    {
        let (flag, rest) = flag_of(self.at(), self.rest)?;
        self.rest = rest;
        Ok(flag)
    }

    /// A content of at most so many pieces.
    pub fn content(&mut self, most: usize) -> Result<Content, RowFault>
        ensures reads { Reads (field.Pieces most) (value.Pieces most) self.old self.new result }
        ensures within { IfOk result (λ content. length content ≤ most) }
    {
        let (content, rest) = content_of(self.alloc, most, self.at(), self.rest)?;
        self.rest = rest;
        Ok(content)
    }
}
