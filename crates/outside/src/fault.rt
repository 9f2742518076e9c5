// Which file the last fault of reading was about.

#[derive(Drop)]
pub enum Fault {
    Never,
    // The file that was named last.
    Here,
    // An earlier one, of this name.
    Before(String),
}
