/// Which spelling an install has: the old one knows no IPv6.
#[derive(Clone, Copy, Debug, PartialEq, Eq)]
pub enum Version {
    Old,
    New,
}
