ghost use Rattle.std.specs.Prelude.{◌≡◌, ◌++◌, IfOk};
ghost use Rattle.pf_page.specs.Page.{page_text};

use crate::foot::FOOT;
use crate::head::HEAD;
use pf_text::pieces::{Chain, Pieces, Whole};
use std::alloc::{AllocError, Global};

/// A page in pieces: its head, the data of a run, its foot.
pub type PagePieces<P> = Chain<Whole, Chain<P, Whole>>;

/// A page around the data of a run, which is a line of JSON without `<`.
///
/// # Errors
///
/// Where memory is refused.
#[tactic(auto, unfolding(crate::specs::Page::page_text))]
pub fn page_pieces<P: Pieces + Drop>(
    alloc: Global,
    run_data: P,
) -> Result<PagePieces<P>, AllocError>
    ensures { IfOk result (λ page. page ≡ page_text (P.left run_data)) }
{
    between(alloc, HEAD, run_data, FOOT)
}

/// A text between two others.
fn between<P: Pieces + Drop>(
    alloc: Global,
    head: &str,
    middle: P,
    foot: &str,
) -> Result<PagePieces<P>, AllocError>
    ensures { IfOk result (λ page. page ≡ head.now ++ (P.left middle ++ foot.now)) }
{
    let head = Whole::new(Vec::from_slice(alloc, head.as_bytes())?);
    let foot = Whole::new(Vec::from_slice(alloc, foot.as_bytes())?);
    Ok(Chain::new(head, Chain::new(middle, foot)))
}
