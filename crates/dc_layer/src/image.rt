// What a layer asks to be written.
use dc_text::Text;

/// A file as a layer wants it.
#[derive(Drop)]
pub struct Image {
    pub path: Text,
    /// The permission bits.
    pub mode: u16,
    /// What the file is to hold. `None` is for a file to remove.
    pub bytes: Option<Text>,
    /// The text before the change, where it is to be kept beside the file.
    pub old: Option<Text>,
}
