// What an encoder answers.
use encoders::faults::EncodeFault;
pub use text::words::Word;

pub type Answer = Result<Word, EncodeFault>;
