// What the definitions come to that the contracts cite: laws, each a clause. The functions do nothing.
ghost use Rattle.mount_proc.specs.Laws.{ExportNamesRoot, PathsNameDirectories, MountIsListed, UnmountUndoesMount};
ghost use Rattle.mount_proc.specs.Laws.{UnmountTakesOut, HostIsTakenOut, MountKeepsOthers, UnmountKeepsOthers, OtherHostsStay};

/// The export path names the root, and each path that isn't refused a directory.
pub fn path_laws()
    ensures root { ExportNamesRoot }
    ensures directories { PathsNameDirectories }
{}

/// A pair is listed once it was mounted, and not once it or its whole host was taken out; the other pairs are listed as before.
/// A new pair that is taken out again leaves the list as it was.
pub fn mount_laws()
    ensures listed { MountIsListed }
    ensures undone { UnmountUndoesMount }
    ensures out { UnmountTakesOut }
    ensures host_out { HostIsTakenOut }
    ensures kept { MountKeepsOthers }
    ensures left { UnmountKeepsOthers }
    ensures hosts { OtherHostsStay }
{}
