// What listings come to, as the definitions say it: laws, each a clause. The function does nothing.
ghost use Rattle.nfs_wire.specs.Results.{EntryText, EntryPlusText};
ghost use Rattle.name_queries.specs.ListingLaws.{FillsTheFront, GoesOnBehind, ReaddirplusesFit, ReaddirsFit};

/// The results of a listing have at most as many bytes as its count says, but for the empty end, which has 24. What is given
/// of the entries that are left stands in front of them, and `eof` is set exactly where none is left. A listing that goes on
/// behind an entry goes on with the one that follows it.
pub fn listing_laws()
    ensures readdir { ReaddirsFit }
    ensures readdirplus { ReaddirplusesFit }
    ensures front { FillsTheFront EntryText }
    ensures front_plus { FillsTheFront EntryPlusText }
    ensures behind { GoesOnBehind }
{}
