// What a request or a piece came to.

/// What a request or a piece came to.
#[derive(Drop)]
pub struct Served {
    /// What is written for it.
    pub text: String,
    /// Whether its connection ended.
    pub ended: bool,
}
