//! Laws of what a channel begins with, and of what frames do to it.

ghost use Rattle.token_channel.specs.Channels.{WhatComesIsHeld, WhatComesWasAway, WhatFollowsIsHeld, WhatFollowsWasAway, WhatIsSharedStays};
ghost use Rattle.token_channel.specs.Waiting.{FewWait};
ghost use Rattle.token_channel.specs.Opening.{OpensAsThePlanStarts};

/// Of a frame that isn't refused, what it brings is held afterwards, and all else as before.
pub fn what_comes_is_held()
    ensures { WhatComesIsHeld }
{}

/// What a frame brings that isn't refused is shared, and wasn't held before.
pub fn what_comes_was_away()
    ensures { WhatComesWasAway }
{}

/// What follows of the kept messages is held afterwards, and all else as before.
pub fn what_follows_is_held()
    ensures { WhatFollowsIsHeld }
{}

/// What follows of them is shared, and wasn't held before.
pub fn what_follows_was_away()
    ensures { WhatFollowsWasAway }
{}

/// What the two offices share doesn't change.
pub fn what_is_shared_stays()
    ensures { WhatIsSharedStays }
{}

/// At the opening just those things are shared that the plan has between the two, and those are held that start here.
pub fn opens_as_the_plan_starts()
    ensures { OpensAsThePlanStarts }
{}

/// Whatever is sent and whatever comes, of B records at most `2 + 2B` messages wait.
pub fn few_wait()
    ensures { FewWait }
{}
