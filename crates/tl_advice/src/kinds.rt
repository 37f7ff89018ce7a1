//! What kind of file some bytes are, told by how they begin.

use crate::fields::field_at;
use crate::forms::form_of_command;
use tl_script::Role;
use tl_show::first_line;

/// What a file is, where it is told by its first bytes.
#[derive(Clone, Copy, Debug, PartialEq, Eq)]
pub enum Kind {
    Empty,
    Gzip,
    Zstd,
    Xz,
    Bzip2,
    /// Text of two bytes a character.
    Utf16,
    /// Text after a byte order mark.
    Marked,
    /// A value change dump of a simulator.
    Waveform,
    /// A text of the product, by its first word.
    Text(Role),
    Other,
}

impl Kind {
    /// Whether it has lines that can be shown.
    pub fn has_lines(self) -> bool {
        matches!(
            self,
            Kind::Marked | Kind::Waveform | Kind::Text(_) | Kind::Other
        )
    }
}

const GZIP: [u8; 2] = [0x1f, 0x8b];

const ZSTD: [u8; 4] = [0x28, 0xb5, 0x2f, 0xfd];

const XZ: [u8; 6] = [0xfd, b'7', b'z', b'X', b'Z', 0];

const BZIP2: [u8; 3] = [b'B', b'Z', b'h'];

const LITTLE: [u8; 2] = [0xff, 0xfe];

const BIG: [u8; 2] = [0xfe, 0xff];

const MARK: [u8; 3] = [0xef, 0xbb, 0xbf];

/// What a file is whose text is none of the product's.
fn foreign_kind(bytes: &[u8]) -> Option<Kind> {
    if bytes.is_empty() {
        Some(Kind::Empty)
    } else if bytes.starts_with(GZIP.as_slice()) {
        Some(Kind::Gzip)
    } else if bytes.starts_with(ZSTD.as_slice()) {
        Some(Kind::Zstd)
    } else if bytes.starts_with(XZ.as_slice()) {
        Some(Kind::Xz)
    } else if bytes.starts_with(BZIP2.as_slice()) {
        Some(Kind::Bzip2)
    } else if bytes.starts_with(LITTLE.as_slice()) || bytes.starts_with(BIG.as_slice()) {
        Some(Kind::Utf16)
    } else if bytes.starts_with(MARK.as_slice()) {
        Some(Kind::Marked)
    } else if bytes[0] == b'$' {
        Some(Kind::Waveform)
    } else {
        None
    }
}

/// What a file is.
pub fn kind_of(bytes: &[u8]) -> Kind {
    if let Some(kind) = foreign_kind(bytes) {
        return kind;
    }
    let line = first_line(bytes);
    match field_at(line, 0) {
        b"topo" => Kind::Text(Role::Topology),
        b"fragment" => Kind::Text(Role::Fragment),
        _ if form_of_command(line).is_some() => Kind::Text(Role::Script),
        _ => Kind::Other,
    }
}
