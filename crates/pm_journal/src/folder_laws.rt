//! Laws of deliveries to folders, each as the contract of a call that does nothing.
ghost use Rattle.pm_journal.specs.FolderLaws.{PlacesMakeTree, PlacesStand, PlaceFaultsHaveCalls, PlaceRepliesFit};
ghost use Rattle.pm_journal.specs.FolderLaws.{PlacedIsStored, OnePlace, PlacesLeaveChildren};

/// The tree of files is what the reply and the folders that were made say.
pub fn places_make_tree()
    ensures { PlacesMakeTree }
{}

/// A placed piece is one new file, a torn one a new file with the stated front of it, and any other reply leaves no
/// file.
pub fn places_stand()
    ensures { PlacesStand }
{}

/// No fault is invented: a faulty reply has a failed call.
pub fn place_faults_have_calls()
    ensures { PlaceFaultsHaveCalls }
{}

/// The calls of a delivery to a folder give it a reply that it can have.
pub fn place_replies_fit()
    ensures { PlaceRepliesFit }
{}

/// A piece is placed only where its file was synced to disk before.
pub fn placed_is_stored()
    ensures { PlacedIsStored }
{}

/// Calls are shared out to a delivery to a folder in one way only.
pub fn one_place()
    ensures { OnePlace }
{}

/// A delivery to a folder starts no child and ends none.
pub fn places_leave_children()
    ensures { PlacesLeaveChildren }
{}
