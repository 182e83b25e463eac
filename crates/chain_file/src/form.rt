//! The forms of a block file.

ghost use Rattle.std.specs.Prelude.{◌≡◌, Some, None};
ghost use Rattle.tx_text.specs.Parts.{parts_of};
ghost use Rattle.chain_file.specs.Headers.{file_form, form_said};

use tx_text::split_line;

/// The two versions of a block file.
#[derive(Clone, Copy, PartialEq, Eq)]
pub enum ChainVersion {
    /// Blocks have no times.
    One,
    /// Each block has a time.
    Two,
}

/// The two kinds of block files.
#[derive(Clone, Copy, PartialEq, Eq)]
pub enum FileKind {
    /// Blocks name no hash.
    Draft,
    /// Each block names the hash of the one before.
    Chain,
}

/// The form of a block file, which its header says.
#[derive(Clone, Copy, PartialEq, Eq)]
pub struct FileForm {
    pub kind: FileKind,
    pub version: ChainVersion,
}

/// The form whose header a line is.
pub fn form_said(line: &[u8]) -> Option<FileForm>
    ensures { result ≡ form_said line.now }
{
    let (kind, version) = if line == b"draft 1".as_slice() {
        (FileKind::Draft, ChainVersion::One)
    } else if line == b"draft 2".as_slice() {
        (FileKind::Draft, ChainVersion::Two)
    } else if line == b"chain 1".as_slice() {
        (FileKind::Chain, ChainVersion::One)
    } else if line == b"chain 2".as_slice() {
        (FileKind::Chain, ChainVersion::Two)
    } else {
        return None;
    };
    Some(FileForm { kind, version })
}

/// The form of a file that begins with these bytes, where its first line is whole and a header.
#[tactic(auto, using(crate::proofs::Forms::split_form, crate::proofs::Forms::no_form))]
pub fn file_form(bytes: &[u8]) -> Option<FileForm>
    ensures { result ≡ file_form bytes.now }
{
    match split_line(bytes) {
        Some((line, _)) => form_said(line),
        None => None,
    }
}
