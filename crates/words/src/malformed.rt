// Why a line gets no answer of its own: it has none of the forms, or doesn't fit what it is about. It
// gets `bad`.
#[derive(Clone, Copy, Debug)]
pub struct Malformed;
