ghost use Rattle.std.specs.Prelude.{◌≡◌, ◌≤◌, min, length, take, option_copied};
ghost use Rattle.cep_outside.specs.Named.{content_of};

use cep_event::{ByteList, Sequence, Text};

/// A file in memory.
#[derive(Debug, Drop)]
pub struct Named {
    pub name: Text,
    pub bytes: ByteList,
}

/// Of files with one name the first counts.
pub type NamedList = Sequence<Named>;

// The bytes of the first file of a name.
pub(crate) fn first_named<'a>(files: &'a [Named], name: &str) -> Option<&'a ByteList>
    ensures { option_copied result ≡ content_of files.now name.now }
{
    for file in files {
        if file.name.as_str() == name {
            return Some(&file.bytes);
        }
    }
    None
}

// Copies as much of the bytes as there is, or as fits, to the front of the room.
pub(crate) fn copy_front(bytes: &[u8], room: &mut [u8]) -> usize
    ensures count { result ≡ min (length bytes.now) (length room.old) }
    ensures front { take result room.new ≡ take result bytes.now }
{
    let count = bytes.len().min(room.len());
    room[..count].copy_from_slice(&bytes[..count]);
    count
}
