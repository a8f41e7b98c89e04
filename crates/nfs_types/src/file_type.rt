// What kind of object a name stands for.
ghost use Rattle.std.specs.Prelude.{◌≡◌, IfOk, IfErr, OnErr, Ok, Err};
ghost use Rattle.nfs_types.specs.Types.{type_number, type_at};

use xdr::{Reader, XdrFault};

/// `ftype3` of RFC 1813 section 2.
#[derive(Clone, Copy, Debug, PartialEq, Eq)]
pub enum FileType {
    Regular,
    Directory,
    Block,
    Character,
    Link,
    Socket,
    Fifo,
}

impl FileType {
    /// The number that stands for it in a message.
    pub fn number(self) -> u32
        ensures { result ≡ type_number self }
    {
        match self {
            FileType::Regular => 1,
            FileType::Directory => 2,
            FileType::Block => 3,
            FileType::Character => 4,
            FileType::Link => 5,
            FileType::Socket => 6,
            FileType::Fifo => 7,
        }
    }
}

/// Reads the word that names a type; another one is `BadChoice`, at its place.
#[tactic(auto, unfolding(crate::specs::Types::type_at, xdr::specs::Reading::u32_at))]
pub fn read_type(reader: &mut Reader<'_>) -> Result<FileType, XdrFault>
    ensures ok { IfOk result (λ t. type_at reader.old ≡ Ok (t, reader.new)) }
    ensures err { IfErr result (λ fault. type_at reader.old ≡ Err fault) }
{
    let place = reader.place();
    let number = reader.take_u32()?;
    match number {
        1 => Ok(FileType::Regular),
        2 => Ok(FileType::Directory),
        3 => Ok(FileType::Block),
        4 => Ok(FileType::Character),
        5 => Ok(FileType::Link),
        6 => Ok(FileType::Socket),
        7 => Ok(FileType::Fifo),
        _ => Err(XdrFault::BadChoice { place }),
    }
}
