// Texts that were made by hand from RFC 1813 sections 3.3 and 5.2.
mod arguments;
mod results;
