//! A folder of a store that was found: a bad database in it is no refusal, and it is read before it is written.
use crate::script::{folder_of, runs};
use dconf_found::FoundFolder;
use std::test::Fail;

const SCRIPT: &str = "
$ read -p x /k => 0
$ list -p x / => 0
$ write -p x /k 5 => 0
$ read -p x /k => 1
! error: Device x
";

#[test]
fn a_bad_database_is_no_refusal(rt: HostRuntime) -> Result<(), Fail> {
    let alloc = rt.alloc();
    let files = folder_of(alloc, &[("user.user", "no database")])?;
    let profile = String::from_str(alloc, "x")?;
    let made = "user-db:user".as_bytes().to_vec(alloc)?;
    let mut folder = FoundFolder::new(alloc, files, profile, Some(made), false, true);
    runs(alloc, SCRIPT, &mut folder)?;
    if folder.bad().len() == 3 {
        Ok(())
    } else {
        Err(Fail::new("not each read of it was noted"))
    }
}
