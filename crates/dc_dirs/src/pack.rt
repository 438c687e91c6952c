// Layers in folders with a file for each prefix.
use dc_conf::spec::LayerSort;
use dc_layer::{Sort, SortedLayer};

/// A folder: a file for all items whose names begin alike up to the first slash (debconf.conf(5), PackageDir).
#[derive(Drop)]
pub struct PackSort;

impl Sort for PackSort {
    ghost use Rattle.dc_conf.specs.declared.spec.LayerSort.TheVariants.{Pack};

    ghost sort = { Pack };

    fn value() -> LayerSort {
        LayerSort::Pack
    }
}

/// A layer in a folder with a file for each prefix.
pub type PackageDirLayer = SortedLayer<PackSort>;
