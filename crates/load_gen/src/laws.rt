// What the calls of a drill are, as a law of the definitions that the contracts cite. The function does nothing.
ghost use Rattle.load_gen.specs.Laws.{EachCallIsValid};

/// Each message of a drill is read as a call by AUTH_NONE with these arguments, and these are read as those of a WRITE
/// and of a COMMIT of the file (RFC 5531 section 9, RFC 1813 sections 3.3.7 and 3.3.21).
pub fn load_laws()
    ensures { EachCallIsValid }
{}
