//! Laws of saves, over the definitions alone.
ghost use Rattle.std.specs.Prelude.{◌≡◌, ◌++◌, List, Result, true, map as each};
ghost use Rattle.std.specs.List.{list_all, IsDistinct};
ghost use Rattle.std.specs.Str.{bytes_eq};
ghost use Rattle.dc_outside.specs.State.{FilesView};
ghost use Rattle.dc_conf.specs.Configuration.{are_apart, fits_sort};
ghost use Rattle.dc_conf.specs.declared.spec.LayerSpec.{LayerSpec};
ghost use Rattle.dc_conf.specs.declared.spec.LayerSort.TheVariants.{Tree};
ghost use Rattle.dc_layer.specs.declared.image.Image.{Image};
ghost use Rattle.dc_save.specs.declared.saving.SaveError.{SaveError};
ghost use Rattle.dc_outside.specs.Disk.{Disk, DiskState, IsDurable, HasLeftMore};
ghost use Rattle.dc_save.specs.Saving.{Saves, LeavesOldOrNew, MayAddAny, AreApart, KeepsPaths, StandSaved, all_images, all_saved};
ghost use Rattle.dc_layer.specs.State.{LayerState, file_images, images_by, item_image};
ghost use Rattle.dc_save.specs.Places.{AreOf, AreSetUpFor};

/// However a save ends, a crash at any moment leaves each path's old file or the new one, and at most the paths beside it else.
pub fn no_half_is_left()
    ensures { (images : List Image) (old new : FilesView) (result : Result (Unit {0}) SaveError)
        → Saves images old new result → LeavesOldOrNew images old new }
{}

/// Where no two images may write the same path, a crash leaves at the path of each its old file or the new one, and every other
/// path as it was.
pub fn paths_have_old_or_new()
    ensures { (images : List Image) (before after : Disk)
        → AreApart images → IsDurable before.current → HasLeftMore (MayAddAny images) before after → KeepsPaths images before after }
{}

/// What stands after such images are saved.
pub fn saved_images_stand()
    ensures { (images : List Image) (old : DiskState) → AreApart images → StandSaved images old (all_saved old images) }
{}

/// Images of databases whose places don't meet are such images.
pub fn images_of_databases_are_apart()
    ensures { (specs : List LayerSpec) (images : List Image)
        → list_all fits_sort specs ≡ true → are_apart specs ≡ true → AreOf specs images → AreApart images }
{}

/// What saves in one run leave, one after another.
pub fn saves_chain()
    ensures { (images others : List Image) (first middle last : Disk)
        → HasLeftMore (MayAddAny images) first middle → HasLeftMore (MayAddAny others) middle last → HasLeftMore (MayAddAny (images ++ others)) first last }
{}

/// What layers that were set up for these databases save in files are images of them.
pub fn images_of_layers_are_of_their_databases()
    ensures { (layers : List LayerState) (specs : List LayerSpec) → AreSetUpFor layers specs → AreOf specs (all_images (each file_images layers)) }
{}

/// Where no name is touched twice, a folder with a file for each item asks for one file for each touched name, in their order.
pub fn each_touched_name_has_one_file()
    ensures { (spec : LayerSpec) (layer : LayerState) → IsDistinct bytes_eq layer.touched
        → images_by Tree spec layer ≡ each (item_image spec layer.table) layer.touched }
{}
