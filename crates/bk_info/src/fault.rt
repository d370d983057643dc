//! Why a book does not open.
use bk_name::{Name, Uri};
use xt_table::Txt;

/// How an element of XInclude is wrong, in the order of the tests. XInclude 1.1, sections 3.1 and 3.2.
#[derive(Clone, Copy, Debug, PartialEq, Eq)]
pub enum IncludeKind {
    /// Its `parse` is neither `xml` nor `text`, as `parse="html"`.
    Parse,
    /// It has a `fragid`.
    Fragid,
    /// It has a `set-xml-id`.
    SetXmlId,
    /// Its `href` has a fragment, as `href="c.xml#d"`.
    HrefFragment,
    /// It has an `xpointer` beside `parse="text"`.
    TextPointer,
    /// It names its own document as XML, and no element of it: `<xi:include/>`.
    NoPointer,
    /// Beside `parse="text"`, its `encoding` is another than UTF-8, as `encoding="latin1"`.
    Encoding,
    /// It has two children `fallback`.
    TwoFallbacks,
    /// Another child of it is in the namespace of XInclude, as `<xi:include href="c.xml"><xi:include href="d.xml"/></xi:include>`.
    ChildInNamespace,
    /// A `fallback` stands elsewhere than in an `include`, or a pointer finds it.
    StrayFallback,
}

/// Why a book does not open, with the file that holds the cause: the reference, the element or the include. A file that isn't
/// there, or has no reading, is named itself.
#[derive(Debug, Drop)]
pub enum BookFault {
    /// The file isn't there: the root, or one that an external entity or a DOCTYPE names.
    Missing { file: Name },
    /// It has more than 4,194,304 bytes, or gives more than 1,000,000 nodes.
    TooLarge { file: Name },
    /// Its bytes aren't UTF-8, or it declares another encoding.
    Encoding { file: Name },
    /// It is not well-formed, as `<a>`.
    NotWellFormed { file: Name },
    /// An element stands at level 129.
    TooDeep { file: Name },
    /// It has a DOCTYPE, another reference than the five, or an element of XInclude: what isn't built yet.
    NotYet { file: Name },
    /// Its DOCTYPE names an external subset, or refers to a parameter entity, as `<!DOCTYPE a SYSTEM "a.dtd">`.
    Unread { file: Name },
    /// A catalog isn't there, is not well-formed, or lacks an attribute that it must have.
    Catalog { file: Name },
    /// An entity or a catalog has a place that isn't in the book, as `http://a/`.
    OutsideBook { uri: Uri },
    /// The entity isn't declared, as in `<a>&e;</a>`.
    Undeclared { file: Name, name: Txt },
    /// A reference to the entity stands within the entity, as with `<!ENTITY e "&e;">`.
    EntityLoop { file: Name, name: Txt },
    /// The value of an attribute refers to an external entity, as in `<a b="&e;"/>` with `<!ENTITY e SYSTEM "e.xml">`.
    ExternalInAttribute { file: Name, name: Txt },
    /// An entity that isn't parsed is referred to, as one of `<!ENTITY e SYSTEM "e.png" NDATA png>`.
    Unparsed { file: Name, name: Txt },
    /// A namespace declaration isn't allowed, as `xmlns:p=""`.
    BadNamespace { file: Name },
    /// A prefix isn't bound, as in `<p:a/>`.
    Unbound { file: Name, prefix: Txt },
    /// Two attributes of one tag have one expanded name.
    DuplicateAttribute { file: Name },
    /// An `xml:base`, an `href` or a system identifier doesn't join, as `http://[`.
    BadReference { file: Name },
    /// An element of XInclude is wrong, as `<xi:include/>`.
    BadInclude { file: Name, kind: IncludeKind },
    /// An `xpointer` has no reading, as `element(/0)`.
    BadPointer { file: Name },
    /// An include stands within what it shows, as one of `b.xml` in `b.xml`.
    IncludeLoop { file: Name },
    /// An include finds nothing and has no `fallback`.
    NoFallback { file: Name },
    /// The document element is an include that gives another number of elements than one, as one of a text.
    RootNotOne { file: Name },
}
