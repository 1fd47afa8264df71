//! The JSON of listings, of the trash and of versions (RFC 8259).

ghost use Rattle.std.specs.Prelude.{◌≡◌, IfOk, map};
ghost use Rattle.std.specs.String.{string_bytes};
ghost use Rattle.serde_json.specs.View.{view};
ghost use Rattle.nf_dav.specs.Reply.{item_object, kind_word as word_of_kind, line_object, listing_body, listing_object, trash_body, trash_object, version_object, versions_body, versions_object};

use nf_base::NodeKind;
use nf_json::{Said, object_of, text_of};
use nf_words::{ItemLine, Items, Listing, ListingLine, VersionLine, Versions};
use serde_json::{Value, json};
use std::alloc::{AllocError, Global};

/// The text of what is in a folder.
#[tactic(auto, using(crate::proofs::Floats::listing_has_no_float))]
pub fn listing_text(alloc: Global, listing: &Listing) -> Result<String, AllocError>
    ensures { IfOk result (λ text. string_bytes text ≡ listing_body listing.now) }
{
    listing_value(alloc, listing)?.to_string(alloc)
}

fn listing_value(alloc: Global, listing: &Listing) -> Result<Value, AllocError>
    ensures { IfOk result (λ value. view value ≡ listing_object listing.now) }
{
    let entries = line_values(alloc, listing.lines())?;
    json!(in alloc; {"entries": entries})
}

fn line_values(alloc: Global, lines: &[ListingLine]) -> Result<Vec<Value>, AllocError>
    ensures { IfOk result (λ values. map view values.items ≡ map line_object lines.now) }
{
    let mut values = Vec::with_capacity(alloc, lines.len())?;
    for line in lines {
        values.push(line_value(alloc, line)?)?;
    }
    Ok(values)
}

fn line_value(alloc: Global, line: &ListingLine) -> Result<Value, AllocError>
    ensures { IfOk result (λ value. view value ≡ line_object line.now) }
{
    object_of(
        alloc,
        &[
            ("changed", Said::Number(line.changed.seconds())),
            ("id", Said::Number(line.id.number())),
            ("kind", Said::Text(kind_word(line.kind))),
            ("name", Said::Text(text_of(&line.name))),
            ("owner", Said::Text(text_of(&line.owner))),
            (
                "permissions",
                Said::Number(u64::from(line.permissions.bits())),
            ),
            ("size", Said::Number(line.size)),
        ],
    )
}

/// The text of what is in the trash.
#[tactic(auto, using(crate::proofs::Floats::trash_has_no_float))]
pub fn items_text(alloc: Global, items: &Items) -> Result<String, AllocError>
    ensures { IfOk result (λ text. string_bytes text ≡ trash_body items.now) }
{
    items_value(alloc, items)?.to_string(alloc)
}

fn items_value(alloc: Global, items: &Items) -> Result<Value, AllocError>
    ensures { IfOk result (λ value. view value ≡ trash_object items.now) }
{
    let lines = item_values(alloc, items.lines())?;
    json!(in alloc; {"items": lines})
}

fn item_values(alloc: Global, items: &[ItemLine]) -> Result<Vec<Value>, AllocError>
    ensures { IfOk result (λ values. map view values.items ≡ map item_object items.now) }
{
    let mut values = Vec::with_capacity(alloc, items.len())?;
    for item in items {
        values.push(item_value(alloc, item)?)?;
    }
    Ok(values)
}

fn item_value(alloc: Global, item: &ItemLine) -> Result<Value, AllocError>
    ensures { IfOk result (λ value. view value ≡ item_object item.now) }
{
    object_of(
        alloc,
        &[
            ("at", Said::Number(item.at.seconds())),
            ("id", Said::Number(item.id.number())),
            ("kind", Said::Text(kind_word(item.kind))),
            ("name", Said::Text(text_of(&item.name))),
            ("size", Said::Number(item.size)),
        ],
    )
}

/// The text of which versions a file has.
#[tactic(auto, using(crate::proofs::Floats::versions_have_no_float))]
pub fn versions_text(alloc: Global, versions: &Versions) -> Result<String, AllocError>
    ensures { IfOk result (λ text. string_bytes text ≡ versions_body versions.now) }
{
    versions_value(alloc, versions)?.to_string(alloc)
}

fn versions_value(alloc: Global, versions: &Versions) -> Result<Value, AllocError>
    ensures { IfOk result (λ value. view value ≡ versions_object versions.now) }
{
    let lines = version_values(alloc, versions.lines())?;
    json!(in alloc; {"versions": lines})
}

fn version_values(alloc: Global, versions: &[VersionLine]) -> Result<Vec<Value>, AllocError>
    ensures { IfOk result (λ values. map view values.items ≡ map version_object versions.now) }
{
    let mut values = Vec::with_capacity(alloc, versions.len())?;
    for version in versions {
        values.push(version_value(alloc, version)?)?;
    }
    Ok(values)
}

fn version_value(alloc: Global, version: &VersionLine) -> Result<Value, AllocError>
    ensures { IfOk result (λ value. view value ≡ version_object version.now) }
{
    object_of(
        alloc,
        &[
            ("at", Said::Number(version.at.seconds())),
            ("size", Said::Number(version.size)),
        ],
    )
}

fn kind_word(kind: NodeKind) -> &'static str
    ensures { result.now ≡ word_of_kind kind }
{
    match kind {
        NodeKind::Folder => "folder",
        NodeKind::File => "file",
    }
}
