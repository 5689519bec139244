//! Users with their groups and keys, on an admin `root` and a group `makers` that may print.
use super::ANA_KEY;
use arrayvec::ArrayVec;
use byte_text::Name;
use octo_access::{Admin, Groups, Permission, Policy, UserRefusal, UserRow, Users, digest_of};
use std::alloc::Global;
use std::process::Abort;
use std::test::Fail;

fn user(text: &str, key: &[u8], group: &str) -> Result<UserRow, Fail> {
    let mut groups = ArrayVec::new();
    groups.push(Name::of(group)?);
    Ok(UserRow {
        name: Name::of(text)?,
        digest: digest_of(key),
        groups,
        active: true,
    })
}

fn policy(alloc: Global) -> Result<Policy, Fail> {
    let mut groups = Groups::new(alloc);
    groups.add(&Name::of("makers")?, &[Permission::Print])?;
    let admin = Admin {
        name: Name::of("root")?,
        digest: digest_of(b"root-key-0123456789"),
    };
    Ok(Policy::new(groups, Some(admin)))
}

const BEN_KEY: &[u8] = b"ben-key-0123456789";

// The user ana, in the group `makers`.
fn only_ana(alloc: Global, policy: &Policy) -> Result<Users, Fail> {
    let mut users = Users::new(alloc);
    users.put(&user("ana", ANA_KEY, "makers")?, policy)?;
    Ok(users)
}

// Whether the key is of a user of that name, or of none.
fn is_key_of(users: &Users, policy: &Policy, key: &[u8], wanted: Option<&str>) -> bool {
    match users.by_key(policy, key) {
        Some(row) => wanted.is_some_and(|wanted| row.name.as_str() == wanted),
        None => wanted.is_none(),
    }
}

// The digest of a key, by another program.
#[test]
fn digests(rt: HostRuntime) {
    let wanted: [u8; 32] = [
        0x3d, 0x6d, 0xc2, 0x58, 0xf9, 0x67, 0x78, 0x1f, 0x85, 0x98, 0xc1, 0x1a, 0xf4, 0xd6, 0x99,
        0xe0, 0xa7, 0xf3, 0xf5, 0xf5, 0x2f, 0x6b, 0x1a, 0x0f, 0x09, 0x31, 0x15, 0x09, 0x33, 0xa2,
        0xd5, 0xae,
    ];
    assert_eq!(rt; digest_of(b"ana-key-0123456789"), wanted);
}

// The users ben and ana, put in that order.
fn two_users(alloc: Global, policy: &Policy) -> Result<Users, Fail> {
    let mut users = Users::new(alloc);
    for (name, key, group) in [("ben", BEN_KEY, "users"), ("ana", ANA_KEY, "makers")] {
        users.put(&user(name, key, group)?, policy)?;
    }
    Ok(users)
}

#[test]
fn ample(rt: HostRuntime) -> Result<(), Fail> {
    let policy = policy(rt.alloc())?;
    assert_eq!(rt; two_users(rt.alloc(), &policy)?.rows().len(), 2);
    Ok(())
}

#[test]
fn keys(rt: HostRuntime) -> Result<(), Fail> {
    let policy = policy(rt.alloc())?;
    let users = two_users(rt.alloc(), &policy)?;
    for (key, wanted) in [
        (ANA_KEY, Some("ana")),
        (b"root-key-0123456789", Some("root")),
        (b"", None),
    ] {
        assert!(rt; is_key_of(&users, &policy, key, wanted));
    }
    Ok(())
}

// Why a user isn't put beside ana.
fn refusal(
    alloc: Global,
    name: &str,
    key: &[u8],
    group: &str,
) -> Result<Option<UserRefusal>, Fail> {
    let policy = policy(alloc)?;
    let mut users = only_ana(alloc, &policy)?;
    Ok(users.put(&user(name, key, group)?, &policy).err())
}

#[test]
fn name_taken(rt: HostRuntime) -> Result<(), Fail> {
    let refused = refusal(rt.alloc(), "ana", b"new-key-0123456789", "users")?;
    assert!(rt; matches!(refused, Some(UserRefusal::NameTaken)));
    Ok(())
}

#[test]
fn key_taken(rt: HostRuntime) -> Result<(), Fail> {
    let refused = refusal(rt.alloc(), "eve", ANA_KEY, "users")?;
    assert!(rt; matches!(refused, Some(UserRefusal::KeyTaken { name }) if name.as_str() == "ana"));
    Ok(())
}

#[test]
fn unknown_group(rt: HostRuntime) -> Result<(), Fail> {
    let refused = refusal(rt.alloc(), "eve", b"eve-key-0123456789", "painters")?;
    assert!(rt;
        matches!(refused, Some(UserRefusal::BadGroup { group }) if group.as_str() == "painters")
    );
    Ok(())
}

// Switches ana off; her row before.
fn switch_off(users: &mut Users, policy: &Policy) -> Result<UserRow, Fail> {
    let mut ana = user("ana", ANA_KEY, "makers")?;
    ana.active = false;
    Ok(users.change(&ana, policy)?)
}

#[test]
fn switched_off(rt: HostRuntime) -> Result<(), Fail> {
    let policy = policy(rt.alloc())?;
    let mut users = only_ana(rt.alloc(), &policy)?;
    assert!(rt; switch_off(&mut users, &policy)?.active);
    assert!(rt; users.by_key(&policy, ANA_KEY).is_none());
    Ok(())
}

#[test]
fn taken_back(rt: HostRuntime) -> Result<(), Fail> {
    let policy = policy(rt.alloc())?;
    let mut users = only_ana(rt.alloc(), &policy)?;
    switch_off(&mut users, &policy)?;
    users.take_back(&Name::of("ana")?);
    assert!(rt; users.rows().is_empty());
    Ok(())
}

#[test]
fn permissions(rt: HostRuntime) -> Result<(), Fail> {
    let policy = policy(rt.alloc())?;
    for (group, permission, wanted) in [
        ("makers", Permission::Print, true),
        ("makers", Permission::Status, false),
        ("readonly", Permission::FilesList, true),
        ("readonly", Permission::FilesSelect, false),
    ] {
        let member = user("ana", b"", group)?;
        assert!(rt; policy.allowed(&member, permission) == wanted, "{group}");
    }
    Ok(())
}

#[test]
fn permission_names(rt: HostRuntime) {
    for (name, wanted) in [
        ("FILES_DELETE", Some(Permission::FilesDelete)),
        ("files_delete", None),
    ] {
        assert_eq!(rt; Permission::from_name(name), wanted);
    }
}
