ghost use Rattle.std.specs.Prelude.{◌≡◌, ◌≤◌, ◌^◌};
ghost use Rattle.pf_vocabulary.specs.declared.look.style.Style.{Style};
ghost use Rattle.pf_picture.specs.Picture.{characters_in, gutter_of};

use crate::drawing::Drawing;
use pf_vocabulary::look::style::Style;

/// The width of a character.
const CHARACTER: u128 = 6;

/// The characters of the longest of a task's words on a line.
fn characters_in(style: Style, drawing: &Drawing) -> u128
    ensures value { result ≡ characters_in style drawing.now }
    ensures short { result ≤ 2 ^ 66 }
{
    let label = drawing.label().len() as u128;
    let weight = drawing.weight().len() as u128;
    match style {
        Style::Strips => label.max(weight),
        Style::Stairs => label + 2 + weight,
    }
}

/// How much room stands left of the slots, for the words of these tasks.
pub(crate) fn gutter_of(style: Style, drawings: &[Drawing]) -> u128
    ensures value { result ≡ gutter_of style drawings.now }
    ensures some { 96 ≤ result }
    ensures short { result ≤ 2 ^ 80 }
{
    let mut most = 96;
    for drawing in drawings {
        most = most.max(16 + CHARACTER * characters_in(style, drawing));
    }
    most
}
