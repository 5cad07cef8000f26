// Ways into JSON values.

/// A step from a JSON value to one inside it.
#[derive(Drop)]
pub enum Step {
    /// To what is under this name of an object.
    Key(String),
    /// To the value at this place of an array, from 0.
    Item(usize),
}
