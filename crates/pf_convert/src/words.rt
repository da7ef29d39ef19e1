//! What the words of a conversion ask for. The one contract of this folder: words are read as the quanta, the switch, the unit,
//! the processors and the format that they tell, or the first of them that is mistaken is told.

pub mod arrivals;
pub mod conversion;
pub mod fit;
pub mod fit_asked;
pub mod list_word;
pub mod mistake;
pub mod quanta;
pub mod read;
