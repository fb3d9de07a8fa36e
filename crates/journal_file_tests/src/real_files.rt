use crate::samples::{End, FIRST, SECOND, append_first, append_second, expect_records, opened};
use disk_port::{FileDisk, SureDisk};
use journal_file::{InitFault, init};
use std::{env, fs, process};

#[test]
fn a_journal_in_a_file(rt: HostRuntime) {
    let parent = env::temp_dir(&rt).expect(&rt, "a folder");
    let process = process::id(rt.process());
    let path = format!(in rt.alloc(); "{}/journal_file_{process}", parent.as_str()).expect(
        &rt, "memory",
    );
    let copy = format!(in rt.alloc(); "{}", path.as_str()).expect(&rt, "memory");
    let mut disk = FileDisk::making(rt.clone().expect(&rt, "a handle"), copy);
    assert_eq!(rt; init(&mut disk), Ok(()));
    assert_eq!(rt; init(&mut disk), Err(InitFault::NotEmpty { len: 17 }));
    let mut journal = opened(&rt, &mut disk, &[]);
    assert_eq!(rt; append_first(&rt, &mut journal, &mut disk), Ok(()));
    assert_eq!(rt; append_second(&rt, &mut journal, &mut disk), Ok(()));
    let copy = format!(in rt.alloc(); "{}", path.as_str()).expect(&rt, "memory");
    let mut again = FileDisk::new(rt.clone().expect(&rt, "a handle"), copy);
    let _ = expect_records(&rt, &mut again, &[&FIRST, &SECOND], End::Closed);
    assert_eq!(rt; (disk.faults(), again.faults()), (0, 0));
    fs::remove_file(&rt, path.as_str()).expect(&rt, "a file");
}

#[test]
fn a_full_device(rt: HostRuntime) {
    let path = format!(in rt.alloc(); "/dev/full").expect(&rt, "memory");
    let mut disk = FileDisk::new(rt.clone().expect(&rt, "a handle"), path);
    assert_eq!(rt; init(&mut disk), Err(InitFault::DiskFault));
    assert_eq!(rt; disk.faults(), 1);
}

#[test]
fn a_journal_on_a_sure_disk(rt: HostRuntime) {
    let mut disk = SureDisk::new(Vec::new(rt.alloc()));
    assert_eq!(rt; init(&mut disk), Ok(()));
    let mut journal = opened(&rt, &mut disk, &[]);
    for _ in 0..50 {
        assert_eq!(rt; append_first(&rt, &mut journal, &mut disk), Ok(()));
    }
    assert_eq!(rt; journal.end(), 16 + 50 * 14);
    assert_eq!(rt; disk.faults(), 0);
}
