/// The version of the programs, which the file `VERSION` at the top has too.
pub const VERSION: &str = "0.2.0";
