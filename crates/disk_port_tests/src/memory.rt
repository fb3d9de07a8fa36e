use disk_port::{Disk, DiskFailed, MemDisk, SureDisk};
use std::alloc::Global;
use std::process::Abort;

fn bytes_of<R: Abort>(rt: &R, alloc: Global, bytes: &[u8]) -> Vec<u8> {
    Vec::from_slice(alloc, bytes).expect(rt, "memory")
}

fn disk_of<R: Abort + AllocGlobal>(rt: &R, bytes: &[u8], fails: &[u64], stop: u64) -> MemDisk {
    let fails = Vec::from_slice(rt.alloc(), fails).expect(rt, "memory");
    MemDisk::new(bytes_of(rt, rt.alloc(), bytes), fails, stop)
}

/// Asserts what one read gives of a disk.
fn expect_read<R: Abort, D: Disk>(rt: &R, disk: &mut D, at: u64, wanted: &[u8]) {
    let mut into = [7; 4];
    let count = disk.read(at, &mut into).expect(rt, "a read");
    assert_eq!(rt; &into[..count], wanted);
}

fn expect_calls<R: Abort, D: Disk>(rt: &R, disk: &mut D) {
    assert!(rt; matches!(disk.len(), Ok(5)));
    expect_read(rt, disk, 0, &[1, 2, 3, 4]);
    expect_read(rt, disk, 3, &[4, 5]);
    expect_read(rt, disk, 5, &[]);
    expect_read(rt, disk, u64::MAX, &[]);
    assert!(rt; disk.write_at(4, &[9, 8]).is_ok());
    expect_read(rt, disk, 3, &[4, 9, 8]);
    assert!(rt; disk.write_at(8, &[6]).is_ok());
    expect_read(rt, disk, 5, &[8, 0, 0, 6]);
    assert!(rt; disk.sync().is_ok());
    assert!(rt; matches!(disk.len(), Ok(9)));
    assert!(rt; disk.write_at(u64::MAX, &[1, 2]).is_err());
    assert!(rt; matches!(disk.len(), Ok(9)));
}

#[test]
fn reads_and_writes(rt: HostRuntime) {
    let mut disk = disk_of(&rt, &[1, 2, 3, 4, 5], &[], u64::MAX);
    expect_calls(&rt, &mut disk);
    assert_eq!(rt; disk.bytes(), [1, 2, 3, 4, 9, 8, 0, 0, 6].as_slice());
    assert_eq!(rt; (disk.calls(), disk.faults()), (13, 1));
    let mut sure = SureDisk::new(bytes_of(&rt, rt.alloc(), &[1, 2, 3, 4, 5]));
    expect_calls(&rt, &mut sure);
    assert_eq!(rt; sure.bytes(), [1, 2, 3, 4, 9, 8, 0, 0, 6].as_slice());
    assert_eq!(rt; sure.faults(), 1);
}

#[test]
fn listed_calls_fail(rt: HostRuntime) {
    let mut disk = disk_of(&rt, &[1, 2], &[1, 3, 5, 7], u64::MAX);
    let mut into = [0; 2];
    assert_eq!(rt; disk.len(), Err(DiskFailed));
    assert_eq!(rt; disk.len(), Ok(2));
    assert_eq!(rt; disk.read(0, &mut into), Err(DiskFailed));
    assert_eq!(rt; disk.read(0, &mut into), Ok(2));
    assert_eq!(rt; disk.write_at(0, &[9]), Err(DiskFailed));
    assert_eq!(rt; disk.write_at(1, &[9]), Ok(()));
    assert_eq!(rt; disk.sync(), Err(DiskFailed));
    assert_eq!(rt; disk.sync(), Ok(()));
    assert_eq!(rt; disk.bytes(), [1, 9].as_slice());
    assert_eq!(rt; (disk.calls(), disk.faults()), (8, 4));
}

#[test]
fn each_call_from_the_stop_on_fails(rt: HostRuntime) {
    let mut disk = disk_of(&rt, &[1, 2], &[], 2);
    assert_eq!(rt; disk.write_at(0, &[9]), Ok(()));
    assert_eq!(rt; disk.sync(), Err(DiskFailed));
    assert_eq!(rt; disk.len(), Err(DiskFailed));
    assert_eq!(rt; disk.write_at(0, &[8]), Err(DiskFailed));
    assert_eq!(rt; disk.bytes(), [9, 2].as_slice());
    assert_eq!(rt; disk.faults(), 3);
}

fn expect_image<R: Abort>(rt: &R, disk: &MemDisk, keep: u64, fill: u8, wanted: &[u8]) {
    let image = disk.image(keep, fill).expect(rt, "memory");
    assert_eq!(rt; image.as_slice(), wanted);
}

#[test]
fn images_of_writes_that_are_not_synced(rt: HostRuntime) {
    let mut disk = disk_of(&rt, &[1, 2, 3], &[3], u64::MAX);
    expect_image(&rt, &disk, 0, 255, &[1, 2, 3]);
    assert_eq!(rt; disk.write_at(1, &[20, 30, 40]), Ok(()));
    assert_eq!(rt; disk.write_at(5, &[60]), Ok(()));
    assert_eq!(rt; disk.write_at(0, &[99]), Err(DiskFailed));
    expect_image(&rt, &disk, 0, 255, &[1, 255, 255, 255, 0, 255]);
    expect_image(&rt, &disk, 1, 0, &[1, 20, 30, 40, 0, 0]);
    expect_image(&rt, &disk, 2, 255, &[1, 20, 30, 40, 0, 60]);
    expect_image(&rt, &disk, u64::MAX, 255, &[1, 20, 30, 40, 0, 60]);
    assert_eq!(rt; disk.sync(), Ok(()));
    expect_image(&rt, &disk, 0, 255, &[1, 20, 30, 40, 0, 60]);
    assert_eq!(rt; disk.write_at(0, &[5]), Ok(()));
    expect_image(&rt, &disk, 0, 1, &[1, 20, 30, 40, 0, 60]);
    expect_image(&rt, &disk, 0, 7, &[7, 20, 30, 40, 0, 60]);
}
