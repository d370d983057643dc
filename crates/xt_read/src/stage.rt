//! How far the top of a document has come.

ghost use Rattle.std.specs.Prelude.{◌≡◌, option_map};
ghost use Rattle.xt_spec.specs.Reading.{is_before_root};
ghost use Rattle.xt_read.specs.Run as spec;
ghost use Rattle.xt_read.specs.Progress.{stage_of, body_of};

/// What is read behind a byte order mark and a declaration: the top of a document, or content.
#[derive(Clone, Copy, Debug, PartialEq, Eq)]
pub(crate) enum Body {
    Document,
    Content,
}

impl Body {
    /// The first stage; content has none.
    pub(crate) fn first_stage(self) -> Option<Stage>
        ensures { option_map stage_of result ≡ spec.first_stage (body_of self) }
    {
        match self {
            Body::Document => Some(Stage::BeforeDoctype),
            Body::Content => None,
        }
    }
}

/// How far the top of a document has come.
#[derive(Clone, Copy, Debug, PartialEq, Eq)]
pub(crate) enum Stage {
    BeforeDoctype,
    /// The DOCTYPE came.
    BeforeRoot,
    /// The document element came.
    BehindRoot,
}

impl Stage {
    /// Whether the document element has yet to come.
    fn is_before_root(self) -> bool
        ensures { result ≡ is_before_root (stage_of self) }
    {
        matches!(self, Stage::BeforeDoctype | Stage::BeforeRoot)
    }
}

/// Whether an element may begin at the top.
pub(crate) fn begins_root(stage: Option<Stage>) -> bool
    ensures { result ≡ spec.begins_root (option_map stage_of stage) }
{
    match stage {
        Some(stage) => stage.is_before_root(),
        None => true,
    }
}

/// Whether a DOCTYPE declaration may stand at the top.
pub(crate) fn begins_document(stage: Option<Stage>) -> bool
    ensures { result ≡ spec.begins_document (option_map stage_of stage) }
{
    matches!(stage, Some(Stage::BeforeDoctype))
}

/// How far the top has come behind an element.
pub(crate) fn behind_element(stage: Option<Stage>) -> Option<Stage>
    ensures { option_map stage_of result ≡ spec.behind_element (option_map stage_of stage) }
{
    match stage {
        Some(_) => Some(Stage::BehindRoot),
        None => None,
    }
}

/// Whether the document element came, where there has to be one.
pub(crate) fn has_ended(stage: Option<Stage>) -> bool
    ensures { result ≡ spec.has_ended (option_map stage_of stage) }
{
    match stage {
        Some(stage) => !stage.is_before_root(),
        None => true,
    }
}
