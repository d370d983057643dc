//! The nodes of items that hold no others.
ghost use Rattle.std.specs.Prelude.{◌≡◌, ◌+◌, ◌∷◌, [], suc, List, ℕ, IfOk, IfErr};
ghost use Rattle.xt_spec.specs.Tree.{Items, leaf, text_item, comment_item, pi_item};
ghost use Rattle.xt_tree.specs.Meaning.{at_span};
ghost use Rattle.xt_spec.specs.Reading.{document};
ghost use Rattle.bk_spec.specs.Node.{owned, node_count};
ghost use Rattle.bk_spec.specs.NodePaths.{path_below};
ghost use Rattle.bk_spec.specs.DocumentNodes.{Context};
ghost use Rattle.bk_info.specs.Nodes.{nodes_in};
ghost use Rattle.bk_info.specs.Vias.{HaveVia};
ghost use Rattle.ent_doc.specs.Opening.{open_fault};
ghost use Rattle.ent_doc.specs.Steps.{Gives, GivesFault, HasPaths, IsCut, some_node};

use crate::fault::OpenFault;
use crate::source::Source;
use crate::work::Work;
use bk_info::{Address, Node};
use std::alloc::Global;
use xt_lex::Span;
use xt_table::Txt;
use xt_value::{comment_text, pi_parts, text_value};

/// The node of a text item; none where its value is empty.
pub(crate) fn text_node(
    alloc: Global,
    source: &Source<'_>,
    work: &mut Work,
    span: Span,
    address: Address,
) -> Result<Option<Node>, OpenFault>
    requires cut { IsCut source.now.text.now span }
    requires owned { address.origin ≡ owned source.now.file.now document }
    ensures value { IfOk result (λ node. (context : Context) (rest : Items) → Gives source.now.file.now context (leaf text_item (at_span source.now.text.now span) rest) rest work.old.count work.new.count (some_node node)) }
    ensures count { IfOk result (λ node. work.new.count ≡ work.old.count + node_count (nodes_in (some_node node))) }
    ensures paths { IfOk result (λ node. (outer : List ℕ) (index : ℕ) (rest : Items) → address.path ≡ path_below outer index → HasPaths outer index (leaf text_item (at_span source.now.text.now span) rest) rest (suc index) (some_node node)) }
    ensures via { IfOk result (λ node. HaveVia address.via (some_node node)) }
    ensures fault { IfErr result (λ fault. (context : Context) (rest : Items) → GivesFault source.now.file.now context (leaf text_item (at_span source.now.text.now span) rest) work.old.count (open_fault fault)) }
{
    let value = Txt::from_string(text_value(alloc, source.text_at(span), false)?);
    if value.len() == 0 {
        return Ok(None);
    }
    work.count_one(source)?;
    Ok(Some(Node::Text { value, address }))
}

/// The node of a comment.
pub(crate) fn comment_node(
    alloc: Global,
    source: &Source<'_>,
    work: &mut Work,
    span: Span,
    address: Address,
) -> Result<Node, OpenFault>
    requires cut { IsCut source.now.text.now span }
    requires owned { address.origin ≡ owned source.now.file.now document }
    ensures value { IfOk result (λ node. (context : Context) (rest : Items) → Gives source.now.file.now context (leaf comment_item (at_span source.now.text.now span) rest) rest work.old.count work.new.count (node ∷ [])) }
    ensures count { IfOk result (λ node. work.new.count ≡ work.old.count + node_count (nodes_in (node ∷ []))) }
    ensures paths { IfOk result (λ node. (outer : List ℕ) (index : ℕ) (rest : Items) → address.path ≡ path_below outer index → HasPaths outer index (leaf comment_item (at_span source.now.text.now span) rest) rest (suc index) (node ∷ [])) }
    ensures via { IfOk result (λ node. HaveVia address.via (node ∷ [])) }
    ensures fault { IfErr result (λ fault. (context : Context) (rest : Items) → GivesFault source.now.file.now context (leaf comment_item (at_span source.now.text.now span) rest) work.old.count (open_fault fault)) }
{
    let value = comment_text(alloc, source.text_at(span))?;
    work.count_one(source)?;
    Ok(Node::Comment {
        value: Txt::from_string(value),
        address,
    })
}

/// The node of a processing instruction.
pub(crate) fn pi_node(
    alloc: Global,
    source: &Source<'_>,
    work: &mut Work,
    span: Span,
    address: Address,
) -> Result<Node, OpenFault>
    requires cut { IsCut source.now.text.now span }
    requires owned { address.origin ≡ owned source.now.file.now document }
    ensures value { IfOk result (λ node. (context : Context) (rest : Items) → Gives source.now.file.now context (leaf pi_item (at_span source.now.text.now span) rest) rest work.old.count work.new.count (node ∷ [])) }
    ensures count { IfOk result (λ node. work.new.count ≡ work.old.count + node_count (nodes_in (node ∷ []))) }
    ensures paths { IfOk result (λ node. (outer : List ℕ) (index : ℕ) (rest : Items) → address.path ≡ path_below outer index → HasPaths outer index (leaf pi_item (at_span source.now.text.now span) rest) rest (suc index) (node ∷ [])) }
    ensures via { IfOk result (λ node. HaveVia address.via (node ∷ [])) }
    ensures fault { IfErr result (λ fault. (context : Context) (rest : Items) → GivesFault source.now.file.now context (leaf pi_item (at_span source.now.text.now span) rest) work.old.count (open_fault fault)) }
{
    let parts = pi_parts(alloc, source.text_at(span))?;
    work.count_one(source)?;
    Ok(Node::Pi {
        target: work.names.text(alloc, parts.target)?,
        value: Txt::from_string(parts.value),
        address,
    })
}
