// Layers in folders with a file for each item.
use dc_conf::spec::LayerSort;
use dc_layer::{Sort, SortedLayer};

/// A folder: a file for each item, at the item's name (debconf.conf(5), DirTree).
#[derive(Drop)]
pub struct TreeSort;

impl Sort for TreeSort {
    ghost use Rattle.dc_conf.specs.declared.spec.LayerSort.TheVariants.{Tree};

    ghost sort = { Tree };

    fn value() -> LayerSort {
        LayerSort::Tree
    }
}

/// A layer in a folder with a file for each item.
pub type DirTreeLayer = SortedLayer<TreeSort>;
