//! Laws on good states.
ghost use Rattle.s2_state.specs.Laws.{GoodStatesAreSound, GoodStatesShowRows, GoodViewsAreDistinct};

/// A good state is sound.
pub fn good_states_are_sound()
    ensures { GoodStatesAreSound }
{}

/// In a good state the row store shows at each timestamp from the horizon on the content at it, and to each actor its view.
pub fn good_states_show_rows()
    ensures { GoodStatesShowRows }
{}

/// In a good state the unique keys are distinct in each actor's view.
pub fn good_views_are_distinct()
    ensures { GoodViewsAreDistinct }
{}
