//! Manifests as cases write them. The digest of a manifest or a blob is that of its name.
use zot_cases::{Answer, cut, number};
use zot_collect::ManifestRow;
use zot_digest::{Digest, Words, digest_of};
use zot_media::{Descriptor, DescriptorList, Media, Reading};

/// The manifests of a list, in the order of their digests: `NAME@ARRIVED`, and parts with commas between: `>NAME` a child, `+NAME`
/// the config or a layer, `-NAME` an external layer, `^NAME` its subject.
pub fn manifests(answer: &mut Answer, list: &str) -> Vec<ManifestRow> {
    let mut rows = Vec::new(answer.alloc());
    for word in list.split_whitespace() {
        let row = manifest(answer, word);
        answer.keep(rows.push(row), ());
    }
    in_order(answer, &mut rows);
    rows
}

/// Puts manifests in the order of their digests.
pub fn in_order(answer: &mut Answer, rows: &mut Vec<ManifestRow>) {
    let sorted = rows.sort_by_key(|row: &ManifestRow| row.digest);
    answer.keep(sorted, ());
}

// A manifest.
fn manifest(answer: &mut Answer, word: &str) -> ManifestRow {
    let (name, rest) = cut(word, "@");
    let (arrived, parts) = cut(rest, ",");
    let mut row = empty_row(answer, digest_of(name.as_bytes()), number(arrived));
    let alloc = answer.alloc();
    let mut references = Vec::new(alloc);
    let mut children = Vec::new(alloc);
    for part in parts.split(',') {
        let (mark, name) = part.split_at_checked(1).unwrap_or(("", ""));
        let named = descriptor(answer, digest_of(name.as_bytes()), mark == "-");
        match mark {
            ">" => answer.keep(children.push(named), ()),
            "^" => row.reading.subject = Some(named),
            "" => {}
            _ => answer.keep(references.push(named), ()),
        }
    }
    row.reading.references = DescriptorList::new(references);
    row.reading.children = DescriptorList::new(children);
    row
}

/// A manifest that refers to nothing.
pub fn empty_row(answer: &Answer, digest: Digest, arrived: u64) -> ManifestRow {
    ManifestRow {
        digest,
        media: Media::Image,
        arrived,
        reading: Reading::empty(answer.alloc()),
    }
}

/// What refers to a digest.
pub fn descriptor(answer: &Answer, digest: Digest, external: bool) -> Descriptor {
    Descriptor {
        media: Words::new(String::new(answer.alloc())),
        digest,
        size: 0,
        external,
    }
}
