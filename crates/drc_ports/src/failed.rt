/// A call of `Files` that failed. The count of its kind has risen, and nothing was taken, appended or created.
#[derive(Clone, Copy, Debug, PartialEq, Eq)]
pub struct Failed;
