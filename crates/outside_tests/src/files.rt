//! What is done to real files, and what is left of them.
use crate::calls::{Call, FileCall, make_all, make_file_calls};
use crate::watched::{Fault, OWN_FOLDER, Step, Watch, Watched};
use std::alloc::Global;
use std::io::ErrorKind;
use std::os::unix::fs::symlink;
use std::process::Abort;
use std::test::Fail;
use std::{fs, str};
use urna_outside::{CabinetError, Dev, FileMachine, FolderCabinet, Machine};

const FILES: [&str; 4] = [
    "internal.flash",
    "external.flash",
    "internal.flash.new",
    "external.flash.new",
];

/// Whether a name is there, a link that leads nowhere included.
fn is_there(rt: &HostRuntime, name: &str) -> bool {
    fs::symlink_metadata(rt, name).is_ok()
}

/// Which of the files are there.
fn there(rt: &HostRuntime) -> [bool; 4] {
    [
        is_there(rt, FILES[0]),
        is_there(rt, FILES[1]),
        is_there(rt, FILES[2]),
        is_there(rt, FILES[3]),
    ]
}

fn remove(rt: &HostRuntime, names: &[&str]) {
    for name in names {
        let _ = fs::remove_file(rt, *name);
    }
}

fn remove_files(rt: &HostRuntime) {
    remove(rt, &FILES);
}

fn place(abort: &impl Abort, rt: &HostRuntime, name: &str, bytes: &[u8]) {
    assert!(abort; fs::write(rt, name, bytes).is_ok(), "{name}");
}

/// A name that leads to another, which may be none.
fn link(abort: &impl Abort, rt: &HostRuntime, to: &str, name: &str) {
    assert!(abort; symlink(rt, to, name).is_ok(), "{name}");
}

fn check_left(abort: &impl Abort, rt: &HostRuntime, name: &str, bytes: &[u8]) {
    let is_left = match fs::read(rt, name) {
        Ok(left) => left.as_slice() == bytes,
        Err(_) => false,
    };
    assert!(abort; is_left, "{name}");
}

fn check_steps(abort: &impl Abort, alloc: Global, watch: &Watch, steps: &[Step]) {
    let are_taken = match watch.take_steps(alloc) {
        Ok(taken) => taken.as_slice() == steps,
        Err(_) => false,
    };
    assert!(abort; are_taken, "{} steps", steps.len());
}

/// Makes calls on a machine over two flashes of so many bytes. It ends here, and its locks with it.
fn run(abort: &impl Abort, rt: &HostRuntime, size: u32, calls: &[(Call<'_>, bool)]) {
    let mut m = FileMachine::new(rt, size);
    make_all(abort, &mut m, calls);
}

/// A call, whether it ends well, and what it does to the files.
type Row<'a> = (Call<'a>, bool, &'a [Step]);

fn make_rows<M: Machine>(
    abort: &impl Abort,
    alloc: Global,
    watch: &Watch,
    m: &mut M,
    rows: &[Row<'_>],
) {
    for (call, is_ok, steps) in rows {
        make_all(abort, m, &[(*call, *is_ok)]);
        check_steps(abort, alloc, watch, steps);
    }
}

/// The same over watched files.
fn run_watched(abort: &impl Abort, rt: &HostRuntime, fault: Fault, rows: &[Row<'_>]) {
    let watch = Watch::new(rt.alloc(), fault);
    let watched = Watched { rt, watch: &watch };
    let mut m = FileMachine::new(&watched, 16);
    make_rows(abort, rt.alloc(), &watch, &mut m, rows);
}

/// Takes and puts files of the working folder.
fn use_folder(abort: &impl Abort, rt: &HostRuntime, calls: &[FileCall<'_>]) {
    let mut folder = FolderCabinet::new(rt);
    make_file_calls(abort, rt.alloc(), &mut folder, calls);
}

/// The same over watched files, with these steps.
fn use_watched_folder(
    abort: &impl Abort,
    rt: &HostRuntime,
    fault: Fault,
    calls: &[FileCall<'_>],
    steps: &[Step],
) {
    let watch = Watch::new(rt.alloc(), fault);
    let watched = Watched { rt, watch: &watch };
    let mut folder = FolderCabinet::new(&watched);
    make_file_calls(abort, rt.alloc(), &mut folder, calls);
    check_steps(abort, rt.alloc(), &watch, steps);
}

/// What a first write does where nothing has the name of the flash.
const MADE: [Step; 9] = [
    Step::Open,
    Step::Create,
    Step::Lock,
    Step::Duplicate,
    Step::Write,
    Step::SyncAll,
    Step::Link,
    Step::Remove,
    Step::Write,
];

#[test]
fn a_flash_is_whole_on_the_disk_before_it_has_its_name(rt: HostRuntime) {
    remove_files(&rt);
    let opened = [Step::Open, Step::Lock, Step::Duplicate, Step::Write];
    let making = [(Call::Write(Dev::External, 3, &[7]), true, MADE.as_slice())];
    run_watched(&rt, &rt, Fault::Nothing, &making);
    assert!(rt; there(&rt) == [false, true, false, false]);
    let opening = [(Call::Write(Dev::External, 4, &[8]), true, opened.as_slice())];
    run_watched(&rt, &rt, Fault::Nothing, &opening);
    let left = [0, 0, 0, 7, 8, 0, 0, 0, 0, 0, 0, 0, 0, 0, 0, 0];
    check_left(&rt, &rt, "external.flash", &left);
    remove_files(&rt);
}

#[test]
fn a_sync_syncs_the_file_and_at_first_the_folder(rt: HostRuntime) {
    remove_files(&rt);
    let first = [Step::SyncData, Step::OpenFolder, Step::SyncFolder];
    let rows = [
        (Call::Write(Dev::Internal, 0, &[1]), true, MADE.as_slice()),
        (Call::Write(Dev::External, 0, &[1]), true, MADE.as_slice()),
        (Call::Sync(Dev::Internal), true, first.as_slice()),
        (Call::Sync(Dev::External), true, first.as_slice()),
        (Call::Sync(Dev::Internal), true, [Step::SyncData].as_slice()),
    ];
    run_watched(&rt, &rt, Fault::Nothing, &rows);
    remove_files(&rt);
}

#[test]
fn a_sync_fails_where_a_part_of_it_does(rt: HostRuntime) {
    remove_files(&rt);
    let steps = [
        Step::Open,
        Step::Lock,
        Step::Duplicate,
        Step::SyncData,
        Step::OpenFolder,
        Step::SyncFolder,
    ];
    place(&rt, &rt, "internal.flash", &[0; 16]);
    for (failing, done) in [
        (Step::SyncData, 4),
        (Step::OpenFolder, 5),
        (Step::SyncFolder, 6),
    ] {
        let rows = [(Call::Sync(Dev::Internal), false, &steps[..done])];
        run_watched(&rt, &rt, Fault::Kind(failing), &rows);
    }
    remove_files(&rt);
}

#[test]
fn a_making_that_fails_leaves_no_file(rt: HostRuntime) {
    for (failing, steps) in [
        (Step::Create, [Step::Open, Step::Create].as_slice()),
        (
            Step::Duplicate,
            [
                Step::Open,
                Step::Create,
                Step::Lock,
                Step::Duplicate,
                Step::Remove,
            ]
            .as_slice(),
        ),
        (
            Step::Write,
            [
                Step::Open,
                Step::Create,
                Step::Lock,
                Step::Duplicate,
                Step::Write,
                Step::Remove,
            ]
            .as_slice(),
        ),
        (
            Step::SyncAll,
            [
                Step::Open,
                Step::Create,
                Step::Lock,
                Step::Duplicate,
                Step::Write,
                Step::SyncAll,
                Step::Remove,
            ]
            .as_slice(),
        ),
        (Step::Link, &MADE[..8]),
    ] {
        let rows = [(Call::Read(Dev::Internal, 0, &[0]), false, steps)];
        run_watched(&rt, &rt, Fault::Kind(failing), &rows);
        assert!(rt; there(&rt) == [false; 4], "after {} steps", steps.len());
    }
}

/// Whoever has it locked, or has removed it, goes on with it.
#[test]
fn a_new_file_that_is_not_locked_stays(rt: HostRuntime) {
    remove_files(&rt);
    let rows = [(
        Call::Sync(Dev::Internal),
        false,
        [Step::Open, Step::Create, Step::Lock].as_slice(),
    )];
    run_watched(&rt, &rt, Fault::Kind(Step::Lock), &rows);
    assert!(rt; there(&rt) == [false, false, true, false]);
    run(&rt, &rt, 16, &[(Call::Sync(Dev::Internal), true)]);
    assert!(rt; there(&rt) == [true, false, false, false]);
    remove_files(&rt);
}

#[test]
fn one_run_at_a_time_has_a_flash(rt: HostRuntime) {
    remove_files(&rt);
    place(&rt, &rt, "internal.flash", &[0; 4]);
    place(&rt, &rt, "external.flash", &[0; 4]);
    let mut second = FileMachine::new(&rt, 4);
    {
        let mut first = FileMachine::new(&rt, 4);
        let began = [(Call::Write(Dev::Internal, 0, &[1, 2]), true)];
        make_all(&rt, &mut first, &began);
        let refused = [
            (Call::Read(Dev::Internal, 0, &[0]), false),
            (Call::Write(Dev::Internal, 1, &[9]), false),
            (Call::Sync(Dev::Internal), false),
            (Call::Write(Dev::External, 0, &[5]), true),
        ];
        make_all(&rt, &mut second, &refused);
        let went_on = [
            (Call::Write(Dev::Internal, 2, &[3]), true),
            (Call::Sync(Dev::External), false),
        ];
        make_all(&rt, &mut first, &went_on);
    }
    let after = [(Call::Write(Dev::Internal, 3, &[4]), true)];
    make_all(&rt, &mut second, &after);
    check_left(&rt, &rt, "internal.flash", &[1, 2, 3, 4]);
    check_left(&rt, &rt, "external.flash", &[5, 0, 0, 0]);
    remove_files(&rt);
}

#[test]
fn one_run_at_a_time_makes_a_flash(rt: HostRuntime) -> Result<(), Fail> {
    remove_files(&rt);
    // Another run has made its file and fills it.
    place(&rt, &rt, "internal.flash.new", b"0");
    let other = fs::open(&rt, "internal.flash.new")?;
    other.lock()?;
    let mut m = FileMachine::new(&rt, 4);
    make_all(&rt, &mut m, &[(Call::Sync(Dev::Internal), false)]);
    assert!(rt; there(&rt) == [false, false, true, false]);
    // That run is killed.
    other.unlock()?;
    let after = [(Call::Write(Dev::Internal, 3, &[1]), true)];
    make_all(&rt, &mut m, &after);
    assert!(rt; there(&rt) == [true, false, false, false]);
    check_left(&rt, &rt, "internal.flash", &[0, 0, 0, 1]);
    remove_files(&rt);
    Ok(())
}

#[test]
fn one_file_under_both_names_is_a_fault(rt: HostRuntime) {
    remove_files(&rt);
    for is_link in [false, true] {
        place(&rt, &rt, "internal.flash", &[7; 4]);
        if is_link {
            link(&rt, &rt, "internal.flash", "external.flash");
        } else {
            assert!(rt; fs::hard_link(&rt, "internal.flash", "external.flash").is_ok());
        }
        let calls = [
            (Call::Sync(Dev::Internal), true),
            (Call::Sync(Dev::External), false),
            (Call::Write(Dev::External, 0, &[1]), false),
        ];
        run(&rt, &rt, 4, &calls);
        check_left(&rt, &rt, "internal.flash", &[7; 4]);
        remove_files(&rt);
    }
}

#[test]
fn a_link_that_leads_nowhere_stays(rt: HostRuntime) {
    remove_files(&rt);
    link(&rt, &rt, "card/e", "external.flash");
    let calls = [
        (Call::Sync(Dev::External), false),
        (Call::Read(Dev::External, 0, &[0]), false),
        (Call::Write(Dev::External, 0, &[1]), false),
    ];
    run(&rt, &rt, 4, &calls);
    assert!(rt; there(&rt) == [false, true, false, false]);
    let stays = match fs::read_link(&rt, "external.flash") {
        Ok(to) => to.as_str() == "card/e",
        Err(_) => false,
    };
    assert!(rt; stays);
    remove_files(&rt);
}

#[test]
fn what_a_leftover_leads_to_stays(rt: HostRuntime) {
    remove_files(&rt);
    place(&rt, &rt, "kept.tmp", b"kept");
    link(&rt, &rt, "kept.tmp", "internal.flash.new");
    assert!(rt; fs::hard_link(&rt, "kept.tmp", "external.flash.new").is_ok());
    let calls = [
        (Call::Write(Dev::Internal, 0, &[1]), true),
        (Call::Write(Dev::External, 0, &[2]), true),
    ];
    run(&rt, &rt, 2, &calls);
    assert!(rt; there(&rt) == [true, true, false, false]);
    check_left(&rt, &rt, "kept.tmp", b"kept");
    check_left(&rt, &rt, "internal.flash", &[1, 0]);
    check_left(&rt, &rt, "external.flash", &[2, 0]);
    remove(&rt, &["kept.tmp"]);
    remove_files(&rt);
}

#[test]
fn a_file_machine_makes_no_file_before_an_operation_on_it(rt: HostRuntime) {
    remove_files(&rt);
    let mut m = FileMachine::new(&rt, 16);
    assert!(rt; m.size(Dev::Internal) == 16);
    make_all(&rt, &mut m, &[(Call::Show(b"URNA PRONTA 0\n"), true)]);
    assert!(rt; there(&rt) == [false; 4]);
    make_all(
        &rt,
        &mut m,
        &[(Call::Read(Dev::External, 0, &[0; 16]), true)],
    );
    assert!(rt; there(&rt) == [false, true, false, false]);
    check_left(&rt, &rt, "external.flash", &[0; 16]);
    remove_files(&rt);
}

#[test]
fn another_machine_reads_what_was_written_to_the_files(rt: HostRuntime) {
    remove_files(&rt);
    let writes = [
        (Call::Write(Dev::Internal, 3, &[1, 2, 3]), true),
        (Call::Write(Dev::External, 12, &[4, 5, 6, 7]), true),
        (Call::Write(Dev::Internal, 4, &[8]), true),
        (Call::Sync(Dev::Internal), true),
        (Call::Sync(Dev::External), true),
        (Call::Sync(Dev::Internal), true),
    ];
    run(&rt, &rt, 16, &writes);
    let reads = [
        (Call::Read(Dev::Internal, 2, &[0, 1, 8, 3, 0, 0]), true),
        (Call::Read(Dev::External, 12, &[4, 5, 6, 7]), true),
    ];
    run(&rt, &rt, 16, &reads);
    let longer = [
        (Call::Read(Dev::Internal, 0, &[0]), false),
        (Call::Write(Dev::Internal, 0, &[1]), false),
        (Call::Sync(Dev::External), false),
    ];
    run(&rt, &rt, 17, &longer);
    let left = [0, 0, 0, 1, 8, 3, 0, 0, 0, 0, 0, 0, 0, 0, 0, 0];
    check_left(&rt, &rt, "internal.flash", &left);
    remove_files(&rt);
}

#[test]
fn a_refusal_of_the_system_is_a_failure(rt: HostRuntime) {
    let absent = [Step::Open, Step::Create];
    let refused = [Step::Open];
    for (kind, error, steps) in [
        (
            ErrorKind::NotFound,
            CabinetError::Missing,
            absent.as_slice(),
        ),
        (
            ErrorKind::OutOfMemory,
            CabinetError::Memory,
            refused.as_slice(),
        ),
        (
            ErrorKind::PermissionDenied,
            CabinetError::Failed,
            refused.as_slice(),
        ),
        (
            ErrorKind::InvalidInput,
            CabinetError::Failed,
            refused.as_slice(),
        ),
    ] {
        let rows = [
            (Call::Show(b"FIM\n"), false, [Step::Show].as_slice()),
            (Call::Read(Dev::Internal, 0, &[0]), false, steps),
            (Call::Write(Dev::External, 0, &[1]), false, steps),
            (Call::Sync(Dev::Internal), false, steps),
        ];
        let taking = [FileCall::Take("rol", 9, Err(error))];
        use_watched_folder(&rt, &rt, Fault::Everything(kind), &taking, &refused);
        run_watched(&rt, &rt, Fault::Everything(kind), &rows);
    }
}

#[test]
fn a_document_is_read_through_a_duplicate(rt: HostRuntime) {
    place(&rt, &rt, "taken.tmp", b"1");
    let taking = [FileCall::Take("taken.tmp", 9, Ok(b"1"))];
    let steps = [Step::Open, Step::Duplicate];
    use_watched_folder(&rt, &rt, Fault::Nothing, &taking, &steps);
    remove(&rt, &["taken.tmp"]);
}

/// Of a file of 70,000 bytes.
#[test]
fn a_folder_gives_a_file_up_to_the_limit(rt: HostRuntime) {
    let bytes = [b'x'; 70_000];
    place(&rt, &rt, "taken.tmp", &bytes);
    let calls = [
        FileCall::Take("taken.tmp", 70_000, Ok(&bytes)),
        FileCall::Take("taken.tmp", 69_999, Err(CabinetError::TooLong)),
        // A file where a folder should be.
        FileCall::Take("taken.tmp/x", 9, Err(CabinetError::Failed)),
        FileCall::Take("taken", 9, Err(CabinetError::Missing)),
        FileCall::Take("", 9, Err(CabinetError::Missing)),
        FileCall::Take("no/such/file", 9, Err(CabinetError::Missing)),
        FileCall::Take(".", 9, Err(CabinetError::Failed)),
        FileCall::Take("a\0b", 9, Err(CabinetError::Failed)),
    ];
    use_folder(&rt, &rt, &calls);
    check_left(&rt, &rt, "taken.tmp", &bytes);
    remove(&rt, &["taken.tmp"]);
}

/// Puts a file in the stead of another, with these steps. The other name is gone then.
fn check_watched_put(
    abort: &impl Abort,
    rt: &HostRuntime,
    fault: Fault,
    is_ok: bool,
    left: &[u8],
    steps: &[Step],
) {
    place(abort, rt, "put.tmp", b"1");
    let putting = [FileCall::Put("put.tmp", b"23", is_ok)];
    use_watched_folder(abort, rt, fault, &putting, steps);
    check_left(abort, rt, "put.tmp", left);
    assert!(abort; !is_there(rt, "put.tmp.new"));
    remove(rt, &["put.tmp"]);
}

/// What a put does where a file has the name, which is tried for its lock before it is replaced.
const PUT: [Step; 10] = [
    Step::Create,
    Step::Lock,
    Step::Duplicate,
    Step::Write,
    Step::SyncAll,
    Step::Open,
    Step::Lock,
    Step::Rename,
    Step::OpenFolder,
    Step::SyncFolder,
];

#[test]
fn a_put_is_whole_on_the_disk_before_it_has_its_name(rt: HostRuntime) {
    check_watched_put(&rt, &rt, Fault::Nothing, true, b"23", &PUT);
}

#[test]
fn a_put_syncs_the_folder_of_its_own_path(rt: HostRuntime) {
    assert!(rt; fs::create_dir(&rt, OWN_FOLDER).is_ok());
    let putting = [FileCall::Put("own.tmp/put.tmp", b"1", true)];
    let steps = [
        Step::Create,
        Step::Lock,
        Step::Duplicate,
        Step::Write,
        Step::SyncAll,
        Step::Rename,
        Step::OpenOwnFolder,
        Step::SyncFolder,
    ];
    use_watched_folder(&rt, &rt, Fault::Nothing, &putting, &steps);
    remove(&rt, &["own.tmp/put.tmp"]);
    assert!(rt; fs::remove_dir(&rt, OWN_FOLDER).is_ok());
}

/// The steps up to one that fails, and the removal of the new file.
fn removed_after(alloc: Global, done: usize) -> Result<Vec<Step>, Fail> {
    let mut steps = Vec::new(alloc);
    for step in PUT.iter().take(done) {
        steps.push(*step)?;
    }
    steps.push(Step::Remove)?;
    Ok(steps)
}

#[test]
fn a_put_that_fails_leaves_the_old_file(rt: HostRuntime) -> Result<(), Fail> {
    check_watched_put(&rt, &rt, Fault::Kind(Step::Create), false, b"1", &PUT[..1]);
    for (failing, done) in [
        (Step::Duplicate, 3),
        (Step::Write, 4),
        (Step::SyncAll, 5),
        (Step::Open, 6),
        (Step::Rename, 8),
    ] {
        let steps = removed_after(rt.alloc(), done)?;
        check_watched_put(&rt, &rt, Fault::Kind(failing), false, b"1", &steps);
    }
    Ok(())
}

#[test]
fn a_put_that_fails_behind_the_name_leaves_the_new_file(rt: HostRuntime) {
    for (failing, done) in [(Step::OpenFolder, 9), (Step::SyncFolder, 10)] {
        check_watched_put(&rt, &rt, Fault::Kind(failing), false, b"23", &PUT[..done]);
    }
}

/// A second run has removed the new file and made its own.
#[test]
fn a_put_leaves_a_file_that_is_not_its_own(rt: HostRuntime) {
    place(&rt, &rt, "put.tmp", b"1");
    let putting = [FileCall::Put("put.tmp", b"23", false)];
    use_watched_folder(&rt, &rt, Fault::Stolen, &putting, &PUT[..5]);
    check_left(&rt, &rt, "put.tmp", b"1");
    check_left(&rt, &rt, "put.tmp.new", b"stolen");
    remove(&rt, &["put.tmp", "put.tmp.new"]);
}

/// Whoever has it locked goes on with it.
#[test]
fn one_run_at_a_time_puts_a_file(rt: HostRuntime) -> Result<(), Fail> {
    // Another run has made its file and fills it.
    place(&rt, &rt, "put.tmp.new", b"0");
    let other = fs::open(&rt, "put.tmp.new")?;
    other.lock()?;
    use_folder(&rt, &rt, &[FileCall::Put("put.tmp", b"1", false)]);
    check_left(&rt, &rt, "put.tmp.new", b"0");
    assert!(rt; !is_there(&rt, "put.tmp"));
    // That run is killed.
    other.unlock()?;
    use_folder(&rt, &rt, &[FileCall::Put("put.tmp", b"1", true)]);
    check_left(&rt, &rt, "put.tmp", b"1");
    assert!(rt; !is_there(&rt, "put.tmp.new"));
    remove(&rt, &["put.tmp"]);
    Ok(())
}

#[test]
fn a_put_replaces_no_flash_that_is_open(rt: HostRuntime) {
    remove_files(&rt);
    place(&rt, &rt, "put.tmp", &[7; 4]);
    link(&rt, &rt, "put.tmp", "internal.flash");
    let mut m = FileMachine::new(&rt, 4);
    make_all(&rt, &mut m, &[(Call::Sync(Dev::Internal), true)]);
    use_folder(&rt, &rt, &[FileCall::Put("put.tmp", b"1", false)]);
    check_left(&rt, &rt, "put.tmp", &[7; 4]);
    assert!(rt; !is_there(&rt, "put.tmp.new"));
    // The link is replaced, and not the flash that it leads to.
    use_folder(&rt, &rt, &[FileCall::Put("internal.flash", b"1", true)]);
    check_left(&rt, &rt, "put.tmp", &[7; 4]);
    remove(&rt, &["put.tmp"]);
    remove_files(&rt);
}

/// Puts a file under a name of these letters, which ends well or not.
fn check_long_name(abort: &impl Abort, rt: &HostRuntime, bytes: &[u8], is_ok: bool) {
    let name = str::from_utf8(bytes).ok().expect(abort, "letters");
    use_folder(abort, rt, &[FileCall::Put(name, b"1", is_ok)]);
    remove(rt, &[name]);
}

/// A name has 255 bytes at most, also while its file is made.
#[test]
fn a_put_has_room_for_the_end_of_its_other_name(rt: HostRuntime) {
    for (len, is_ok) in [(251, true), (252, false), (255, false), (256, false)] {
        check_long_name(&rt, &rt, &[b'n'; 256][..len], is_ok);
    }
}

/// Over links, which aren't followed, and over what an earlier run left.
#[test]
fn a_folder_puts_files(rt: HostRuntime) {
    place(&rt, &rt, "other.tmp", b"other");
    place(&rt, &rt, "put.tmp.new", b"left over");
    link(&rt, &rt, "other.tmp", "linked.tmp");
    link(&rt, &rt, "other.tmp", "linked.tmp.new");
    assert!(rt; fs::create_dir(&rt, "folder.tmp").is_ok());
    let calls = [
        FileCall::Put("no/such/file", b"6", false),
        FileCall::Put("put.tmp", b"1", true),
        FileCall::Take("put.tmp", 9, Ok(b"1")),
        FileCall::Put("put.tmp", b"", true),
        FileCall::Take("put.tmp", 9, Ok(b"")),
        FileCall::Put("linked.tmp", b"23", true),
        FileCall::Take("linked.tmp", 9, Ok(b"23")),
        FileCall::Put("folder.tmp/put.tmp", b"4", true),
        FileCall::Take("folder.tmp/put.tmp", 9, Ok(b"4")),
        FileCall::Put("folder.tmp", b"5", false),
        FileCall::Put("put.tmp/x", b"7", false),
        FileCall::Put("", b"8", false),
        FileCall::Put("a\0b", b"9", false),
    ];
    use_folder(&rt, &rt, &calls);
    check_left(&rt, &rt, "other.tmp", b"other");
    for unfinished in [
        "put.tmp.new",
        "linked.tmp.new",
        "folder.tmp.new",
        "folder.tmp/put.tmp.new",
        ".new",
    ] {
        assert!(rt; !is_there(&rt, unfinished), "{unfinished}");
    }
    remove(
        &rt,
        &["other.tmp", "put.tmp", "linked.tmp", "folder.tmp/put.tmp"],
    );
    assert!(rt; fs::remove_dir(&rt, "folder.tmp").is_ok());
}
