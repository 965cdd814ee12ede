//! Laws of the definitions, as contracts of functions that do nothing.
ghost use Rattle.bk_calls.specs.Laws.{HasOneScript, IsScriptWithoutFault, IsOneOfThree, AreApart, CallsAreUtf8};
ghost use Rattle.bk_calls.specs.Laws.{AsksOrIsAtFault, IsReadOneWay, NoLineIsLonger, LongestIsLine};

/// A line that is a call is in UTF-8. A line of a script that is not skipped asks for one request,
/// or is at fault with one cause. A text is a script of one list of requests at most, and of some
/// exactly where no line of it is at fault. With the limit of calls it is exactly one of three: a
/// script within the limit, a text with one bad line, or a text that passes the limit.
pub fn scripts_are_read_one_way()
    ensures utf8 { CallsAreUtf8 }
    ensures line { AsksOrIsAtFault }
    ensures read { IsReadOneWay }
    ensures one { HasOneScript }
    ensures some { IsScriptWithoutFault }
    ensures outcome { IsOneOfThree }
    ensures apart { AreApart }
{}

/// The longest line of an image is a line of its sessions, and no line of theirs is longer.
pub fn longest_lines_are_longest()
    ensures none { NoLineIsLonger }
    ensures line { LongestIsLine }
{}
