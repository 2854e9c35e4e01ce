//! The files below a folder, and what is done to them.
ghost use Rattle.std.specs.Prelude.{◌≡◌, All, IfOk, IfSome, IsFalse, IsTrue, None, OnErr, OnOk, map as each, string_bytes};
ghost use Rattle.zot_folder.specs.Listing.{IsChild};
ghost use Rattle.zot_folder.specs.Trees.{Becomes, Cuts, Grows, KeepsOthers, Receives, Renames, ShowsAt, Tears, objects_of};
ghost use Rattle.zot_folder.specs.Walks.{IsListing};
ghost use Rattle.zot_outside.specs.Objects.{Keeps, ReadsAt};

use std::alloc::Global;
use std::io;

/// What lies at a path.
#[derive(Clone, Copy)]
pub enum Kind {
    /// A file of so many bytes.
    File(u64),
    /// A folder.
    Folder,
    /// Something else lies there, as a symbolic link, or no folder lies on the way.
    Other,
}

/// What a new file holds.
#[derive(Clone, Copy)]
pub enum Content<'a> {
    /// These bytes.
    Bytes(&'a [u8]),
    /// The bytes of the file of a path.
    CopyOf(&'a str),
}

/// The files below a root folder, by their paths. The root's own path is empty. Below the root no link is followed: it is no file and no folder.
pub trait Tree {
    ghost use Rattle.std.specs.Prelude.{◌<◌, ◌^◌, IfSome, Option};
    ghost use Rattle.std.specs.FinMap as map;
    ghost use Rattle.zot_folder.specs.Trees.{Files, objects_of};

    // The files by their paths, or none if the tree doesn't tell.
    ghost files: { Self → Option Files };

    /// What lies at a path, or `None` if nothing does.
    fn look(&mut self, alloc: Global, path: &str) -> io::Result<Option<Kind>>
        ensures kept { Keeps (files self.old) (files self.new) }
        ensures shows { IfOk result (λ found. ShowsAt (files self.old) path.now found) };

    /// Fills a buffer with the bytes of a file from a place on, as far as the file reaches, and answers how many there are.
    fn read(&mut self, alloc: Global, path: &str, at: u64, buf: &mut [u8]) -> io::Result<usize>
        ensures kept { Keeps (files self.old) (files self.new) }
        ensures read { IfOk result (λ n. ReadsAt (files self.old) path.now at buf.new n) };

    /// The paths in a folder, in no order: those of its files, and those of its folders, which end with a slash. A folder that isn't there has none.
    fn list(&mut self, alloc: Global, folder: &str) -> io::Result<Vec<String>>
        ensures kept { Keeps (files self.old) (files self.new) }
        ensures children { IfOk result (λ paths. All (λ path. IsChild folder.now (string_bytes path)) paths.items) }
        ensures lists { IfOk result (λ paths. IfSome (objects_of (files self.old)) (λ objects. IsListing objects folder.now (each string_bytes paths.items))) };

    /// Makes a folder, and those on the way, where they aren't there.
    fn make_folder(&mut self, alloc: Global, folder: &str) -> io::Result<()>
        ensures kept { Keeps (files self.old) (files self.new) };

    /// Makes a new file with a content and brings it to the disk, or answers that something has its path. A call that failed may leave a part of it.
    fn create(&mut self, alloc: Global, path: &str, content: Content) -> io::Result<bool>
        ensures made { IfOk result (λ made. IsTrue made → Receives (files self.old) path.now content.entry (files self.new)) }
        ensures taken { IfOk result (λ made. IsFalse made → Keeps (files self.old) (files self.new)) }
        ensures failed { OnErr result (KeepsOthers (files self.old) path.now (files self.new)) };

    /// Gives the file that was created last the path `to` in the same folder, in place of the file that has it, and brings that to the disk.
    fn publish(&mut self, alloc: Global, from: &str, to: &str) -> io::Result<()>
        ensures ok { OnOk result (Renames (files self.old) from.now to.now (files self.new)) }
        ensures err { OnErr result (Keeps (files self.old) (files self.new)) };

    /// Removes a file that a failed call left, if it is there. A tree that tells its files never fails at that.
    fn discard(&mut self, alloc: Global, path: &str)
        ensures { Becomes (files self.old) path.now None (files self.new) };

    /// Adds bytes at the end of a file, or makes it. A call that failed may have added some of them.
    fn extend(&mut self, alloc: Global, path: &str, bytes: &[u8]) -> io::Result<()>
        ensures ok { OnOk result (Grows (files self.old) path.now bytes.now (files self.new)) }
        ensures err { OnErr result (Tears (files self.old) path.now (files self.new)) };

    /// Cuts a file to its first bytes. A tree that tells its files never fails at that.
    fn cut(&mut self, alloc: Global, path: &str, size: u64)
        ensures { Cuts (files self.old) path.now size (files self.new) };

    /// Removes a file, and brings that to the disk.
    fn remove(&mut self, alloc: Global, path: &str) -> io::Result<()>
        ensures ok { OnOk result (Becomes (files self.old) path.now None (files self.new)) }
        ensures err { OnErr result (Keeps (files self.old) (files self.new)) };

    /// Removes the folders that a path lies in, from the innermost on, as long as they are empty.
    fn tidy(&mut self, alloc: Global, path: &str)
        ensures { Keeps (files self.old) (files self.new) };

    // A tree that tells its files has fewer than 2^63 objects.
    ghost limited: { (s : Self) → IfSome (objects_of (files s)) (λ told. map.len told < 2 ^ 63) };
}
