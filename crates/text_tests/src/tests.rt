//! What no contract says: that texts are read and written where there is memory, with each kind of
//! line, of frame and of file, and that what the definitions say of them is what was meant.

mod files;
mod released;
mod told;
