// A run over a real folder.
ghost use Rattle.std.specs.Prelude.{◌≡◌, ◌≤◌, [], length, map as each};
ghost use Rattle.dc_conf.specs.declared.spec.LayerSort.TheVariants.{File as OneFile, Tree, Pack, Pipe};
ghost use Rattle.dc_layer.specs.State.{blank};
ghost use Rattle.dc_run.specs.World.{files_in, packs_in, pipes_in, trees_in};
ghost use Rattle.dc_shelf.specs.Shelves.{AreBlank};

use dc_dirs::{DirTreeLayer, PackageDirLayer};
use dc_host::HostFiles;
use dc_layer::{FileLayer, Layer, PipeLayer};
use dc_outside::{Files, MemLink};
use dc_pipes::HostChild;
use dc_run::{Settings, Shelf, run_words};
use dc_text::{List, Text};
use std::alloc::Global;
use std::os::unix::fs::MetadataExt;
use std::process::Abort;
use std::{env, fs, io};

// An empty folder of this process.
fn make_folder(rt: &HostRuntime, name: &str) -> io::Result<String> {
    let id = std::process::id(rt.process());
    let folder = format!(in rt.alloc(); "{}/dckit-{id}-{name}", env::temp_dir(rt)?.display())?;
    fs::create_dir(rt, folder.as_str())?;
    Ok(folder)
}

// The path of a name in the folder.
fn inside(rt: &impl Abort, alloc: Global, folder: &str, name: &str) -> String {
    format!(in alloc; "{folder}/{name}").expect(rt, "memory")
}

fn text(rt: &impl Abort, alloc: Global, bytes: &str) -> Text {
    Text::from_bytes(alloc, bytes.as_bytes()).expect(rt, "memory")
}

// Writes a configuration of questions and templates in the folder.
fn configure(rt: &impl Abort, host: &HostRuntime, folder: &str) {
    let path = inside(rt, host.alloc(), folder, "conf");
    let conf = format!(in host.alloc();
        "Config: q\nTemplates: t\n\nName: q\nDriver: File\nFilename: {folder}/questions\n\nName: t\nDriver: File\nFilename: {folder}/templates\n"
    ).expect(rt, "memory");
    fs::write(host, path.as_str(), conf.as_str())
        .ok()
        .expect(rt, "done");
}

// A blank layer of each sort that is kept in files.
fn blank_boxes(
    rt: &impl Abort,
    alloc: Global,
) -> (Box<FileLayer>, Box<DirTreeLayer>, Box<PackageDirLayer>)
    ensures file { ⟦<FileLayer as Layer>⟧.state result.0.value ≡ blank OneFile }
    ensures tree { ⟦<DirTreeLayer as Layer>⟧.state result.1.value ≡ blank Tree }
    ensures pack { ⟦<PackageDirLayer as Layer>⟧.state result.2.value ≡ blank Pack }
{
    let file = Box::new(alloc, FileLayer::blank(alloc)).expect(rt, "memory");
    let tree = Box::new(alloc, DirTreeLayer::blank(alloc)).expect(rt, "memory");
    let pack = Box::new(alloc, PackageDirLayer::blank(alloc)).expect(rt, "memory");
    (file, tree, pack)
}

// A blank layer for what comes through a pipe.
fn blank_pipe(rt: &impl Abort, alloc: Global) -> Box<PipeLayer>
    ensures { ⟦<PipeLayer as Layer>⟧.state result.value ≡ blank Pipe }
{
    Box::new(alloc, PipeLayer::blank(alloc)).expect(rt, "memory")
}

// A shelf of blank layers.
fn blank_shelf(rt: &impl Abort, alloc: Global) -> Shelf
    ensures files { AreBlank OneFile (files_in state result) }
    ensures trees { AreBlank Tree (trees_in state result) }
    ensures packs { AreBlank Pack (packs_in state result) }
    ensures pipes { AreBlank Pipe (pipes_in state result) }
    ensures some_files { 16 ≤ length result.files.items }
    ensures some_trees { 16 ≤ length result.trees.items }
    ensures some_packs { 16 ≤ length result.packs.items }
    ensures some_pipes { 1 ≤ length result.pipes.items }
    ensures used { result.used.items ≡ [] }
{
    let mut shelf = Shelf::empty(alloc);
    shelf.take_pipe(blank_pipe(rt, alloc)).expect(rt, "memory");
    while shelf.files.len() < 16 {
        let (file, tree, pack) = blank_boxes(rt, alloc);
        shelf.take_each(file, tree, pack).expect(rt, "memory");
    }
    shelf
}

// What `communicate` answers to the input over the configuration in the folder.
fn answered(rt: &impl Abort, host: &HostRuntime, folder: &str, input: &[u8]) -> Text {
    let alloc = host.alloc();
    let settings = Settings {
        conf_path: text(rt, alloc, inside(rt, alloc, folder, "conf").as_str()),
        frontend: None,
        priority: None,
        lang: Text::new(alloc),
        nonint_seen: false,
    };
    let mut words = List::new(alloc);
    words
        .push(text(rt, alloc, "communicate"))
        .expect(rt, "memory");
    let mut io = MemLink::new(alloc, input, &[], &[]).expect(rt, "memory");
    let mut err = MemLink::new(alloc, b"", &[], &[]).expect(rt, "memory");
    let own = host.clone().expect(rt, "memory");
    let mut files = HostFiles::new(alloc, own, List::new(alloc));
    let mut shelf = blank_shelf(rt, alloc);
    let mut child = HostChild::new(alloc, host);
    let _ = run_words(
        alloc, &words, &settings, &mut io, &mut err, &mut child, &mut files, &mut shelf,
    );
    io.sent().copy().expect(rt, "memory")
}

// The paths below the folder, a bar after each.
fn paths_in(rt: &impl Abort, host: &HostRuntime, folder: &str) -> Text {
    let alloc = host.alloc();
    let own = host.clone().expect(rt, "memory");
    let mut files = HostFiles::new(alloc, own, List::new(alloc));
    let mut shown = Text::new(alloc);
    for path in files
        .list(&text(rt, alloc, folder))
        .expect(rt, "a list")
        .as_slice()
    {
        shown.append(path.bytes()).expect(rt, "memory");
        shown.push(b'|').expect(rt, "memory");
    }
    shown
}

#[test]
fn a_run_saves_its_questions(rt: HostRuntime) {
    let folder = make_folder(&rt, "run").ok().expect(&rt, "done");
    let path = inside(&rt, rt.alloc(), &folder, "questions");
    configure(&rt, &rt, folder.as_str());
    let old = "Name: a/b\nValue: old\n";
    fs::write(&rt, path.as_str(), old).ok().expect(&rt, "done");
    let said = answered(&rt, &rt, &folder, b"SET a/b new\n");
    assert_eq!(rt; said.bytes(), b"0 value set\n".as_slice());
    let saved = fs::read_to_string(&rt, path.as_str()).ok();
    assert_eq!(rt;
        saved.expect(&rt, "done").as_str(),
        "Name: a/b\nValue: new\n\n"
    );
    let mode = fs::metadata(&rt, path.as_str())
        .ok()
        .expect(&rt, "done")
        .mode();
    assert_eq!(rt; mode & 0o7777, 0o600);
    let left = paths_in(&rt, &rt, folder.as_str());
    assert_eq!(rt;
        left.bytes(),
        b"conf|questions|questions-old|".as_slice(),
        "nothing else is left beside it"
    );
    fs::remove_dir_all(&rt, folder.as_str())
        .ok()
        .expect(&rt, "done");
}
