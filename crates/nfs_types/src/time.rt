// Times, and what a request says of one.
ghost use Rattle.std.specs.Prelude.{◌≡◌, IfOk, IfErr, Ok, Err};
ghost use Rattle.nfs_types.specs.Types.{time_at, set_time_at, moment_time};

use xdr::{Reader, XdrFault};

/// `nfstime3` of RFC 1813 section 2: seconds and nanoseconds.
#[derive(Clone, Copy, Debug, PartialEq, Eq)]
pub struct Time {
    pub seconds: u32,
    pub nanos: u32,
}

/// What a set of attributes says of a time (`set_atime`, `set_mtime` of RFC 1813 section 2).
#[derive(Clone, Copy, Debug, PartialEq, Eq)]
pub enum SetTime {
    /// It stays as it is.
    Leave,
    /// The moment of the server.
    Server,
    /// This time.
    At(Time),
}

impl Time {
    /// The time of a moment in milliseconds. Its seconds stop at the greatest number of 32 bits.
    pub fn of_moment(moment: u64) -> Time
        ensures { result ≡ moment_time moment }
    {
        let seconds = (moment / 1000).min(u64::from(u32::MAX));
        Time {
            seconds: seconds as u32,
            nanos: (moment % 1000) as u32 * 1_000_000,
        }
    }
}

/// Reads a time: two words.
#[tactic(auto, unfolding(crate::specs::Types::time_at))]
pub fn read_time(reader: &mut Reader<'_>) -> Result<Time, XdrFault>
    ensures ok { IfOk result (λ t. time_at reader.old ≡ Ok (t, reader.new)) }
    ensures err { IfErr result (λ fault. time_at reader.old ≡ Err fault) }
{
    let seconds = reader.take_u32()?;
    let nanos = reader.take_u32()?;
    Ok(Time { seconds, nanos })
}

/// Reads what is said of a time: a word, and behind 2 a time; a word past 2 is `BadChoice`.
#[tactic(auto, unfolding(crate::specs::Types::set_time_at))]
pub fn read_set_time(reader: &mut Reader<'_>) -> Result<SetTime, XdrFault>
    ensures ok { IfOk result (λ t. set_time_at reader.old ≡ Ok (t, reader.new)) }
    ensures err { IfErr result (λ fault. set_time_at reader.old ≡ Err fault) }
{
    let place = reader.place();
    match reader.take_u32()? {
        0 => Ok(SetTime::Leave),
        1 => Ok(SetTime::Server),
        2 => Ok(SetTime::At(read_time(reader)?)),
        _ => Err(XdrFault::BadChoice { place }),
    }
}
