//! What has room, as contracts of functions that do nothing.

ghost use Rattle.bk_bounds.specs.Laws.{ReadHaveRoom, ReadScriptsHaveRoom};

/// 32 bits number the variables of each project that is read and whose obligations pass no limit, with all copies.
pub fn projects()
    ensures { ReadHaveRoom }
{}

/// And they number the names that each of its scripts brings besides.
pub fn scripts()
    ensures { ReadScriptsHaveRoom }
{}
