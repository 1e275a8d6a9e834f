/// Where a line is.
#[derive(Clone, Copy)]
pub enum Within {
    /// In no block.
    File,
    /// In a block of directives, of the site at this line.
    Directives(u32),
    /// In the block of a matcher: the lines of its site, and of the matcher.
    Tests(u32, u32),
    /// In a block that may not stand where it does, of the site at this line.
    Unread(u32),
}
