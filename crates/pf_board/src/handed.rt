use crate::board::Board;
use crate::issues::Issues;
use crate::keeper::Keeper;
use crate::pass::Pass;

/// What `Board::close` hands back, untouched, where memory is refused.
#[derive(Drop)]
pub struct Handed<E, I: Issues<E>> {
    pub board: Board<E, I>,
    pub keeper: Keeper<E, I>,
    pub passes: Vec<Pass<E, I>>,
}
