//! How a file is kept: a flat list, one entry a tag, an attribute, an end-tag or a leaf, in document order.

/// One thing of a file, in document order: 20 bytes.
#[derive(Clone, Copy, Debug, PartialEq, Eq)]
pub enum Entry {
    /// A start-tag: its span, where its name ends, and how many entries stand between it and its end-tag.
    Elem {
        from: u32,
        to: u32,
        name_to: u32,
        inside: u32,
    },
    /// An empty-element tag: the same, and how many attributes it has.
    Empty {
        from: u32,
        to: u32,
        name_to: u32,
        attrs: u32,
    },
    /// Behind its tag: the span of its name, and that of its value with the quotes.
    Attr {
        at: u32,
        name_to: u32,
        from: u32,
        to: u32,
    },
    End {
        from: u32,
        to: u32,
    },
    Text {
        from: u32,
        to: u32,
    },
    Ref {
        from: u32,
        to: u32,
    },
    Comment {
        from: u32,
        to: u32,
    },
    Pi {
        from: u32,
        to: u32,
    },
    Gap {
        from: u32,
        to: u32,
    },
}
