use crate::story::Story;

/// Which history a value tells.
pub trait Tells<X> {
    ghost use Rattle.pf_share.specs.declared.story.Story.{Story};

    ghost story: { X → Story };
}
