// What is asked of a shelf.

use mc_word::bytes::Text;

/// A load or a save, with the name that it was for.
#[derive(Debug, Drop)]
pub enum Ask {
    Load(Text),
    Save(Text),
}
