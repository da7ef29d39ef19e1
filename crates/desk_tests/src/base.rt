//! What no clause below the desk says: that calls succeed where memory is ample, that a call whose memory was refused succeeds
//! when it is made again, that a flush reaches the writer, what the bytes of a journal mean, and the texts of faults; and rows
//! and processors' words as they were worked out by hand. That a refused call leaves all as it was, its clauses say.

#[cfg(test)]
mod journal;
#[cfg(test)]
mod refused;
#[cfg(test)]
mod rows;
#[cfg(test)]
mod streams;
#[cfg(test)]
mod texts;
#[cfg(test)]
mod timeline;
#[cfg(test)]
mod words;
