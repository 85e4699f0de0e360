// Orders that the light follows where nothing outranks them: On, Off, timed, scenes, night.
#![tactic(auto)]

pub mod light;
pub mod scene;
pub mod wish;
