use drc_geom::Name;

/// What a check will write and say: the results file's name, handed over and kept, its text, and the line.
#[derive(Debug, Drop)]
pub struct Ready {
    pub file: String,
    pub name: Name,
    pub text: Vec<u8>,
    pub line: Vec<u8>,
}
