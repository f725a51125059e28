// Where running stands, and what it comes to.

// What running reads: the forms of the reader, the values of the document, the texts of both, and how many steps are allowed.
#[derive(Clone, Copy)]
pub struct Tables<'a> {
    pub forms: &'a [u64],
    pub nodes: &'a [u64],
    pub pool: &'a [u64],
    pub limit: usize,
}

// A form that is to be run.
#[derive(Clone, Copy)]
pub struct Cursor {
    // where its row stands in the forms table
    pub row: usize,
    // the name word of its value
    pub name: u64,
    // how many bindings there are
    pub bound: usize,
    // how many rows of results are begun
    pub begun: usize,
    // how many steps are counted
    pub steps: usize,
}

// A form whose value was put.
#[derive(Clone, Copy)]
pub struct Done {
    // the code of the value's kind
    pub kind: u64,
    // how many rows of results are begun behind it
    pub begun: usize,
    // how many steps are counted behind it
    pub steps: usize,
}

// The value of a place.
#[derive(Clone, Copy)]
pub struct At {
    // its row in the document's table
    pub row: usize,
    // how many steps are counted behind it
    pub steps: usize,
}
